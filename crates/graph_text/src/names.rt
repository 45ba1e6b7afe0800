//! The names of operations.

ghost use Rattle.std.specs.Prelude.{◌≡◌, ◌<◌, ◌++◌, length, OnOk};
ghost use Rattle.loop_data.specs.Loops.{IsPlace};
ghost use Rattle.loop_data.specs.NamedParts.{array_name, offset_text, place_word};
ghost use Rattle.graph_text.specs.Names.{op_name, opcode_word};

use loop_data::{Loop, Place};
use machine_data::OutOfMemory;
use writing::{Text, push_both, push_with_sign};

/// Appends the constant of a subscript with its sign, unless it is 0.
fn push_offset<T: Text>(text: &mut T, offset: i8) -> Result<(), OutOfMemory>
    ensures ok { OnOk result (T.bytes text.new ≡ T.bytes text.old ++ offset_text offset) }
{
    match offset {
        0 => Ok(()),
        _ => push_with_sign(text, i64::from(offset)),
    }
}

/// The name of an array.
fn array_name(innermost: &Loop, array: u8) -> &str
    requires { array < length innermost.now.arrays }
    ensures { result.now ≡ array_name innermost.now array }
{
    innermost.arrays()[usize::from(array)].name.as_str()
}

/// Appends a place as it stands in a loop text.
fn push_place<T: Text>(text: &mut T, innermost: &Loop, place: Place) -> Result<(), OutOfMemory>
    requires { IsPlace innermost.now place }
    ensures ok { OnOk result (T.bytes text.new ≡ T.bytes text.old ++ place_word innermost.now place) }
{
    push_both(text, array_name(innermost, place.array), "[i")?;
    push_offset(text, place.offset)?;
    text.push_piece("]")
}

/// Appends the name of the operation of this number: that of its value, or for a store its place as it
/// stands in a loop text.
pub fn push_name<T: Text>(text: &mut T, innermost: &Loop, number: u8) -> Result<(), OutOfMemory>
    requires { number < length innermost.now.statements }
    ensures ok { OnOk result (T.bytes text.new ≡ T.bytes text.old ++ op_name innermost.now number) }
{
    let statement = &innermost.statements()[usize::from(number)];
    match (&statement.name, statement.place) {
        (Some(name), _) => text.push_piece(name.as_str()),
        (None, Some(place)) => push_place(text, innermost, place),
        (None, None) => Ok(()),
    }
}

/// The word of the opcode of the operation of this number.
pub(crate) fn opcode_word(innermost: &Loop, number: u8) -> &'static str
    requires { number < length innermost.now.statements }
    ensures { result.now ≡ opcode_word innermost.now number }
{
    innermost.statements()[usize::from(number)].opcode.word()
}
