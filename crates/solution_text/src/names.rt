//! What the parts of a problem are called.

ghost use Rattle.std.specs.Prelude.{◌≡◌, ◌++◌, OnOk, OnErr};
ghost use Rattle.solution_text.specs.Names.{name_in, op_name, unit_name};

use machine_data::OutOfMemory;
use problems::{Draft, Label};
use writing::{Text, push_number};

/// Appends the name with a number, or where there is none the number.
///
/// # Errors
/// [`OutOfMemory`] where memory ran out. The text is what it was.
pub fn push_name(text: &mut Vec<u8>, names: &[Label], number: usize) -> Result<(), OutOfMemory>
    ensures ok { OnOk result (text.new.items ≡ text.old.items ++ name_in names.now number) }
    ensures err { OnErr result (text.new.items ≡ text.old.items) }
{
    match names.get(number) {
        Some(name) => text.push_piece(name.as_str()),
        None => push_number(text, number as u64),
    }
}

/// Appends what an operation is called: its name, or where the problem has no names of operations its number.
///
/// # Errors
/// [`OutOfMemory`] where memory ran out. The text is what it was.
pub fn push_op_name(text: &mut Vec<u8>, draft: &Draft, op: usize) -> Result<(), OutOfMemory>
    ensures ok { OnOk result (text.new.items ≡ text.old.items ++ op_name draft.now op) }
    ensures err { OnErr result (text.new.items ≡ text.old.items) }
{
    push_name(text, draft.names.operations.as_slice(), op)
}

/// Appends what a unit is called: its name, or where the problem has no names of units its number.
///
/// # Errors
/// [`OutOfMemory`] where memory ran out. The text is what it was.
pub fn push_unit_name(text: &mut Vec<u8>, draft: &Draft, unit: usize) -> Result<(), OutOfMemory>
    ensures ok { OnOk result (text.new.items ≡ text.old.items ++ unit_name draft.now unit) }
    ensures err { OnErr result (text.new.items ≡ text.old.items) }
{
    push_name(text, draft.names.units.as_slice(), unit)
}
