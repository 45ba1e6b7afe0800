//! Lines of the faults of a machine text.

ghost use Rattle.std.specs.Prelude.{◌≡◌, ◌++◌, OnOk, flat_map};
ghost use Rattle.writing.specs.Words.{ended};
ghost use Rattle.lint_text.specs.Machines.{machine_message, machine_word};
ghost use Rattle.lint_text.specs.Lines.{machine_line, machine_text, text_told};

use crate::machine_words::{machine_message, machine_word};
use crate::places::push_place;
use machine_data::OutOfMemory;
use machine_lint::{MachineLint, declared_units};
use near_names::Word;
use std::alloc::Global;
use writing::{Text, push_line};

/// Pushes a word with a colon, or nothing where it is empty.
fn push_text(text: &mut Vec<u8>, word: &str) -> Result<(), OutOfMemory>
    ensures { OnOk result (text.new.items ≡ text.old.items ++ text_told word.now) }
{
    if word.is_empty() {
        return Ok(());
    }
    text.push_piece(word)?;
    text.push_piece(": ")
}

/// Pushes the key of a fault, with what stands there.
fn push_key(alloc: Global, text: &mut Vec<u8>, lint: &MachineLint) -> Result<(), OutOfMemory>
    ensures { OnOk result (text.new.items ≡ text.old.items ++ text_told (machine_word lint.now)) }
{
    let word = machine_word(alloc, lint)?;
    push_text(text, word.as_str())
}

/// Pushes what is wrong in a text that declares these units, as the end of a line.
fn push_message(
    alloc: Global,
    text: &mut Vec<u8>,
    units: &[Word],
    lint: &MachineLint,
) -> Result<(), OutOfMemory>
    ensures { OnOk result (text.new.items ≡ text.old.items ++ ended (machine_message units.now lint.now)) }
{
    let message = machine_message(alloc, units, lint)?;
    push_line(text, message.as_str())
}

/// Pushes the line of a fault of a machine text that declares these units.
fn push_machine_fault(
    alloc: Global,
    text: &mut Vec<u8>,
    path: &str,
    units: &[Word],
    lint: &MachineLint,
) -> Result<(), OutOfMemory>
    ensures { OnOk result (text.new.items ≡ text.old.items ++ machine_line path.now units.now lint.now) }
{
    push_place(text, path, lint.line, lint.column)?;
    push_key(alloc, text, lint)?;
    push_message(alloc, text, units, lint)
}

/// Pushes the lines of faults of a machine text that declares these units.
fn push_lines(
    alloc: Global,
    text: &mut Vec<u8>,
    path: &str,
    units: &[Word],
    lints: &[MachineLint],
) -> Result<(), OutOfMemory>
    ensures { OnOk result (text.new.items ≡ text.old.items ++ flat_map (machine_line path.now units.now) lints.now) }
{
    for lint in lints {
        push_machine_fault(alloc, text, path, units, lint)?;
    }
    Ok(())
}

/// Pushes a line for each of these faults of the machine text that has this path and these bytes.
///
/// # Errors
/// Memory ran out. The text has some of the lines after it, and maybe the beginning of one.
pub fn push_machine_faults(
    alloc: Global,
    text: &mut Vec<u8>,
    path: &str,
    bytes: &[u8],
    lints: &[MachineLint],
) -> Result<(), OutOfMemory>
    ensures { OnOk result (text.new.items ≡ text.old.items ++ machine_text path.now bytes.now lints.now) }
{
    let units = declared_units(alloc, bytes)?;
    push_lines(alloc, text, path, units.as_slice(), lints)
}
