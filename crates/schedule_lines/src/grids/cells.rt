//! Cells of a grid.

ghost use Rattle.std.specs.Prelude.{◌≡◌, ◌++◌, decimal, length, replicate, OnOk};
ghost use Rattle.schedule_lines.specs.Columns.{cell_after, padded};

use itoa::Buffer;
use machine_data::OutOfMemory;
use writing::Text;

/// How many digits a number has.
pub(crate) fn digits_of(number: u64) -> usize
    ensures { result ≡ length (decimal number) }
{
    let mut digits = Buffer::new();
    digits.format(number).len()
}

/// Appends `blanks` blanks.
fn push_blanks(text: &mut Vec<u8>, blanks: usize) -> Result<(), OutOfMemory>
    ensures ok { OnOk result (text.new.items ≡ text.old.items ++ replicate blanks 32) }
{
    for _blank in 0..blanks {
        text.push_piece(" ")?;
    }
    Ok(())
}

/// Appends a cell, with blanks before it up to the width of its column.
pub(crate) fn push_padded(text: &mut Vec<u8>, width: usize, cell: &[u8]) -> Result<(), OutOfMemory>
    ensures ok { OnOk result (text.new.items ≡ text.old.items ++ padded width cell.now) }
{
    push_blanks(text, width.saturating_sub(cell.len()))?;
    text.extend_from_slice(cell)
}

/// Appends a cell that holds a number, in decimal digits.
pub(crate) fn push_padded_number(
    text: &mut Vec<u8>,
    width: usize,
    number: u64,
) -> Result<(), OutOfMemory>
    ensures ok { OnOk result (text.new.items ≡ text.old.items ++ padded width (decimal number)) }
{
    let mut digits = Buffer::new();
    push_padded(text, width, digits.format(number).as_bytes())
}

/// Appends a cell that is not the first of its line.
pub(crate) fn push_cell(text: &mut Vec<u8>, width: usize, cell: &[u8]) -> Result<(), OutOfMemory>
    ensures ok { OnOk result (text.new.items ≡ text.old.items ++ cell_after width cell.now) }
{
    text.push_piece(" ")?;
    push_padded(text, width, cell)
}
