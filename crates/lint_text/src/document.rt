//! The faults of a machine text and of a loop text as a JSON document.

ghost use Rattle.std.specs.Prelude.{◌≡◌, ℕ, List, ◌++◌, [], ◌∷◌, IfOk, OnOk, codes, false, map, string_bytes};
ghost use Rattle.serde_json.specs.Data.{array, member, no_members, object, string};
ghost use Rattle.serde_json.specs.View.{items_of, view};
ghost use Rattle.serde_json.specs.Written.{compact_text, items_have_float};
ghost use Rattle.lint_text.specs.Printout.{IsSilent};
ghost use Rattle.lint_text.specs.Document.{IsLintDocument, document_text, fault_value, line_value, loop_value, loop_values, machine_value, machine_values};

use crate::lines::{From, first_line, passing};
use crate::machine_words::{machine_message, machine_word};
use crate::printout::{LintText, Named, loop_lints, machine_lints};
use crate::what::loop_message;
use crate::words::{piece_at, shown_word};
use json_objects::{object_of, with, with_value};
use loop_lint::LoopLint;
use machine_data::OutOfMemory;
use machine_lint::{MachineLint, declared_units};
use near_names::Word;
use serde_json::{Map, ToValue, Value, json};
use std::alloc::Global;

/// A text as a value, if it was made.
fn text_value(text: Result<String, OutOfMemory>) -> Result<Value, OutOfMemory>
    ensures { (bytes : List ℕ) → IfOk text (λ t. string_bytes t ≡ bytes) → IfOk result (λ v. view v ≡ string bytes) }
{
    Ok(Value::String(text?))
}

/// A fault, if its word and what is said of it were made.
fn told_fault(
    alloc: Global,
    path: &str,
    line: usize,
    column: usize,
    word: Result<String, OutOfMemory>,
    message: Result<String, OutOfMemory>,
) -> Result<Value, OutOfMemory>
    ensures { (w m : List ℕ) → IfOk word (λ t. string_bytes t ≡ w) → IfOk message (λ t. string_bytes t ≡ m) → IfOk result (λ v. view v ≡ fault_value path.now line column w m) }
{
    let members = with_value(alloc, Ok(Map::new(alloc)), "column", Value::from(column));
    let members = with_value(alloc, members, "line", Value::from(line));
    let members = with(alloc, members, "message", text_value(message));
    let members = with(alloc, members, "path", path.to_value(alloc));
    object_of(with(alloc, members, "word", text_value(word)))
}

/// A fault of a machine text that declares these units.
fn told_machine(
    alloc: Global,
    path: &str,
    units: &[Word],
    lint: &MachineLint,
) -> Result<Value, OutOfMemory>
    ensures { IfOk result (λ v. view v ≡ machine_value path.now units.now lint.now) }
{
    let word = machine_word(alloc, lint);
    let message = machine_message(alloc, units, lint);
    told_fault(alloc, path, lint.line, lint.column, word, message)
}

/// What is told of this line of a loop text.
fn told_loop(alloc: Global, path: &str, line: &[u8], lint: &LoopLint) -> Result<Value, OutOfMemory>
    ensures { IfOk result (λ v. view v ≡ line_value path.now line.now lint.now) }
{
    let piece = piece_at(line, lint.column(), lint.width());
    let word = shown_word(alloc, piece);
    let message = loop_message(alloc, lint, line, piece);
    told_fault(alloc, path, lint.line(), lint.column(), word, message)
}

/// Pushes a fault of a machine text that declares these units.
fn add_machine(
    alloc: Global,
    values: &mut Vec<Value>,
    path: &str,
    units: &[Word],
    lint: &MachineLint,
) -> Result<(), OutOfMemory>
    ensures { OnOk result (map view values.new.items ≡ map view values.old.items ++ machine_value path.now units.now lint.now ∷ []) }
{
    let value = told_machine(alloc, path, units, lint)?;
    values.push(value)?;
    Ok(())
}

/// Pushes what is told of this line of a loop text.
fn add_loop(
    alloc: Global,
    values: &mut Vec<Value>,
    path: &str,
    line: &[u8],
    lint: &LoopLint,
) -> Result<(), OutOfMemory>
    ensures { OnOk result (map view values.new.items ≡ map view values.old.items ++ line_value path.now line.now lint.now ∷ []) }
{
    let value = told_loop(alloc, path, line, lint)?;
    values.push(value)?;
    Ok(())
}

/// Pushes the faults of a machine text that declares these units.
fn add_lints(
    alloc: Global,
    values: &mut Vec<Value>,
    path: &str,
    units: &[Word],
    lints: &[MachineLint],
) -> Result<(), OutOfMemory>
    ensures { OnOk result (map view values.new.items ≡ map view values.old.items ++ map (machine_value path.now units.now) lints.now) }
{
    for lint in lints {
        add_machine(alloc, values, path, units, lint)?;
    }
    Ok(())
}

/// Pushes the faults of a loop text.
fn add_faults(
    alloc: Global,
    values: &mut Vec<Value>,
    path: &str,
    bytes: &[u8],
    faults: &[LoopLint],
) -> Result<(), OutOfMemory>
    ensures { OnOk result (map view values.new.items ≡ map view values.old.items ++ map (loop_value path.now bytes.now) faults.now) }
{
    let mut from = From {
        passed: 0,
        rest: bytes,
    };
    for fault in faults {
        from = passing(bytes, from, fault.line().saturating_sub(1));
        add_loop(alloc, values, path, first_line(from.rest), fault)?;
    }
    Ok(())
}

/// Pushes the faults of a machine text, if one is given.
fn add_given_lints(
    alloc: Global,
    values: &mut Vec<Value>,
    machine: Option<Named<'_>>,
    lints: &[MachineLint],
) -> Result<(), OutOfMemory>
    ensures { OnOk result (map view values.new.items ≡ map view values.old.items ++ machine_values machine.entry lints.now) }
{
    let Some(named) = machine else {
        return Ok(());
    };
    let units = declared_units(alloc, named.text)?;
    add_lints(alloc, values, named.path, units.as_slice(), lints)
}

/// Pushes the faults of a loop text, if one is given.
fn add_given_faults(
    alloc: Global,
    values: &mut Vec<Value>,
    loops: Option<Named<'_>>,
    faults: &[LoopLint],
) -> Result<(), OutOfMemory>
    ensures { OnOk result (map view values.new.items ≡ map view values.old.items ++ loop_values loops.entry faults.now) }
{
    match loops {
        Some(named) => add_faults(alloc, values, named.path, named.text, faults),
        None => Ok(()),
    }
}

/// The faults of both texts.
fn values_of(
    alloc: Global,
    machine: Option<Named<'_>>,
    loops: Option<Named<'_>>,
    lints: &[MachineLint],
    faults: &[LoopLint],
) -> Result<Vec<Value>, OutOfMemory>
    ensures { IfOk result (λ values. map view values.items ≡ machine_values machine.entry lints.now ++ loop_values loops.entry faults.now) }
{
    let mut values = Vec::new(alloc);
    add_given_lints(alloc, &mut values, machine, lints)?;
    add_given_faults(alloc, &mut values, loops, faults)?;
    Ok(values)
}

/// The document of these faults.
fn document_of(alloc: Global, values: Vec<Value>) -> Result<Value, OutOfMemory>
    ensures { IfOk result (λ v. view v ≡ object (member (codes "faults") (array (items_of (map view values.items))) no_members)) }
{
    json!(in alloc; {"faults": Value::Array(values)})
}

/// The text of a document, without its line feed.
#[tactic(auto, using(crate::proofs::Whole::document_whole))]
fn written(alloc: Global, values: Vec<Value>) -> Result<String, OutOfMemory>
    requires { items_have_float (items_of (map view values.items)) ≡ false }
    ensures { IfOk result (λ text. string_bytes text ≡ compact_text (object (member (codes "faults") (array (items_of (map view values.items))) no_members))) }
{
    document_of(alloc, values)?.to_string(alloc)
}

/// The line of the document of both texts.
#[tactic(auto, unfolding(crate::specs::Document::document_text))]
fn document_line(
    alloc: Global,
    machine: Option<Named<'_>>,
    loops: Option<Named<'_>>,
    lints: &[MachineLint],
    faults: &[LoopLint],
) -> Result<String, OutOfMemory>
    ensures { IfOk result (λ text. string_bytes text ≡ document_text (machine_values machine.entry lints.now ++ loop_values loops.entry faults.now)) }
{
    let values = values_of(alloc, machine, loops, lints, faults)?;
    let mut text = written(alloc, values)?;
    text.push_str("\n")?;
    Ok(text)
}

/// All faults of a machine text and of a loop text, if they are given, as a JSON document on one line: those of the
/// machine first. Keys stand in the order of their bytes.
///
/// # Errors
/// Memory ran out, which says nothing of the texts.
#[tactic(auto, using(crate::proofs::Sound::is_silent))]
pub fn lint_document(
    alloc: Global,
    machine: Option<Named<'_>>,
    loops: Option<Named<'_>>,
) -> Result<LintText, OutOfMemory>
    ensures exact { IfOk result (λ printed. IsLintDocument machine.entry loops.entry printed) }
    ensures silent { IfOk result (λ printed. IsSilent machine.entry loops.entry printed) }
{
    let lints = machine_lints(alloc, machine)?;
    let faults = loop_lints(alloc, machine, loops, &lints)?;
    Ok(LintText {
        text: document_line(alloc, machine, loops, &lints, &faults)?.into_bytes(),
        machine_faults: !lints.is_empty(),
        loop_faults: !faults.is_empty(),
    })
}
