//! The names that may be meant where a machine text names what is not known.

ghost use Rattle.std.specs.Prelude.{◌≡◌, ◌≤◌, IfOk, Some, length, map};
ghost use Rattle.machine.specs.MachineText.{text_of};
ghost use Rattle.machine_lint.specs.Hints.{declared_units, near_key, near_name, opcode_words, units_in};
ghost use Rattle.near_names.specs.Nearest as spec;
ghost use Rattle.toml.specs.View.{table_view, view};

use crate::judge::text_of;
use crate::place::MachineLint;
use crate::spots::Spot;
use crate::tree::{elements, look_up};
use machine::limits::{MAX_TEXT, MAX_UNITS};
use machine::{Key, MachineFault, OutOfMemory};
use machine_data::OPCODES;
use near_names::{Word, nearest};
use std::alloc::{AllocError, Global};
use toml::{Table, Value};

/// The texts that values are, each without bytes where its value is none.
fn texts_of(alloc: Global, values: &[Value]) -> Result<Vec<Word>, OutOfMemory>
    ensures { IfOk result (λ texts. texts.items ≡ map text_of (map view values.now)) }
{
    let mut texts = Vec::new(alloc);
    for value in values {
        texts.push(Word::of(alloc, text_of(value).as_bytes())?)?;
    }
    Ok(texts)
}

/// The texts of the first elements of `units`.
fn units_in(alloc: Global, tree: &Table) -> Result<Vec<Word>, OutOfMemory>
    ensures { IfOk result (λ units. units.items ≡ units_in (Some (table_view tree.now))) }
{
    texts_of(alloc, elements(look_up(tree, "units"), MAX_UNITS))
}

/// The units that a machine text declares, in their order: the first 64 elements of `units`. An element that is no text is
/// told without bytes. There are none where [`crate::lint_machine`] tells that the text is too long, not UTF-8 or not TOML.
///
/// # Errors
/// Memory ran out, which says nothing of the text.
#[tactic(auto, unfolding(crate::specs::Hints::declared_units))]
pub fn declared_units(alloc: Global, text: &[u8]) -> Result<Vec<Word>, OutOfMemory>
    ensures { IfOk result (λ units. units.items ≡ declared_units text.now) }
{
    if text.len() > MAX_TEXT {
        return Ok(Vec::new(alloc));
    }
    let Ok(words) = str::from_utf8(text) else {
        return Ok(Vec::new(alloc));
    };
    let error = match toml::table_from_str(alloc, words) {
        Ok(tree) => return units_in(alloc, &tree),
        Err(error) => error,
    };
    if error.span().is_none() {
        return Err(AllocError);
    }
    Ok(Vec::new(alloc))
}

/// The nearest of some names to a word, kept.
fn kept(alloc: Global, word: &str, names: &[&[u8]]) -> Result<Option<Word>, OutOfMemory>
    ensures { IfOk result (λ name. name ≡ spec.nearest word.now (map (λ n. n.now) names.now)) }
{
    match nearest(alloc, word.as_bytes(), names)? {
        Some(name) => Ok(Some(Word::of(alloc, name)?)),
        None => Ok(None),
    }
}

/// The nearest of the keys that may stand where a key means nothing.
fn near_key(alloc: Global, spot: &Spot) -> Result<Option<Word>, OutOfMemory>
    ensures { IfOk result (λ name. name ≡ near_key spot.now) }
{
    match spot {
        Spot::TopKey(key) => kept(alloc, key.as_str(), &[b"ops", b"registers", b"units"]),
        Spot::TableKey(_, key) => kept(alloc, key.as_str(), &[b"alts", b"latency"]),
        _ => Ok(None),
    }
}

/// The bytes of words.
fn bytes_of(alloc: Global, words: &[Word]) -> Result<Vec<&[u8]>, OutOfMemory>
    ensures { IfOk result (λ names. map (λ n. n.now) names.items ≡ words.now) }
{
    let mut names = Vec::new(alloc);
    for word in words {
        names.push(word.as_bytes())?;
    }
    Ok(names)
}

/// The nearest of some units.
fn near_unit(alloc: Global, units: &[Word], unit: &Key) -> Result<Option<Word>, OutOfMemory>
    ensures { IfOk result (λ name. name ≡ spec.nearest unit.now units.now) }
{
    let names = bytes_of(alloc, units)?;
    kept(alloc, unit.as_str(), names.as_slice())
}

/// The nearest of the opcodes.
fn near_opcode(alloc: Global, word: &Key) -> Result<Option<Word>, OutOfMemory>
    ensures { IfOk result (λ name. name ≡ spec.nearest word.now opcode_words) }
{
    let words: [&[u8]; OPCODES] = [
        b"load", b"store", b"add", b"sub", b"mul", b"and", b"or", b"xor", b"min", b"max", b"lt",
        b"sel", b"mov",
    ];
    kept(alloc, word.as_str(), &words)
}

/// The name that may be meant where a text that declares these units has a fault: the nearest of the keys, the units or the
/// opcodes that may stand there, where a key, a unit or an opcode is not known. None is told where no name is near enough,
/// and of other faults.
///
/// # Errors
/// Memory ran out, which says nothing of the text.
#[tactic(auto, unfolding(crate::specs::Hints::near_name))]
pub fn near_name(
    alloc: Global,
    units: &[Word],
    lint: &MachineLint,
) -> Result<Option<Word>, OutOfMemory>
    ensures { IfOk result (λ name. name ≡ near_name units.now lint.now) }
{
    match &lint.fault {
        MachineFault::UnknownKey(_) => near_key(alloc, &lint.spot),
        MachineFault::UnknownUnit(unit) => near_unit(alloc, units, unit),
        MachineFault::UnknownOpcode(word) => near_opcode(alloc, word),
        _ => Ok(None),
    }
}
