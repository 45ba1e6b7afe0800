//! Texts that are put together of parts, so that a line is one call and not a chain of calls that may each fail.

ghost use Rattle.std.specs.Prelude.{◌≡◌, ◌++◌, OnOk};
ghost use Rattle.solution_text.specs.inner.Parts.{joined, part_text};

use crate::named::{Register, push_register};
use crate::names::{push_name, push_op_name, push_unit_name};
use machine_data::OutOfMemory;
use problems::Draft;
use writing::{Text, push_signed, push_told};

/// A part of a text on a problem.
#[derive(Clone, Copy)]
pub(crate) enum Part<'a> {
    /// A piece, as it is.
    Piece(&'a str),
    /// A word, then a number.
    Told(&'a str, u64),
    /// A word, then a number that may be negative.
    Signed(&'a str, i64),
    /// What a unit is called.
    Unit(usize),
    /// What a register file is called.
    File(usize),
    /// What an operation is called.
    Operation(usize),
    /// What a value is called.
    Value(usize),
    /// A register by its file and its number.
    Register(Register),
}

/// Appends a part of a text on this problem.
fn push_part(text: &mut Vec<u8>, draft: &Draft, part: Part<'_>) -> Result<(), OutOfMemory>
    ensures ok { OnOk result (text.new.items ≡ text.old.items ++ part_text draft.now part.entry) }
{
    match part {
        Part::Piece(piece) => text.push_piece(piece),
        Part::Told(word, number) => push_told(text, word, number),
        Part::Signed(word, number) => push_signed(text, word, number),
        Part::Unit(unit) => push_unit_name(text, draft, unit),
        Part::File(file) => push_name(text, draft.names.files.as_slice(), file),
        Part::Operation(op) => push_op_name(text, draft, op),
        Part::Value(value) => push_name(text, draft.names.values.as_slice(), value),
        Part::Register(register) => push_register(text, draft, register),
    }
}

/// Appends parts of a text on this problem, in order.
pub(crate) fn push_parts(
    text: &mut Vec<u8>,
    draft: &Draft,
    parts: &[Part<'_>],
) -> Result<(), OutOfMemory>
    ensures ok { OnOk result (text.new.items ≡ text.old.items ++ joined draft.now parts.now) }
{
    for part in parts {
        push_part(text, draft, *part)?;
    }
    Ok(())
}
