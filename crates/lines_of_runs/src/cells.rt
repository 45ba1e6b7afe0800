//! The lines of the cells that a run changed. A long run writes millions of them, so that a line is made
//! from its end to its begin in one buffer, and appended at once.

ghost use Rattle.std.specs.Prelude.{◌≡◌, ◌+◌, ◌<◌, ◌≤◌, ◌++◌, ℕ, [], pos, codes, length, drop, get_or, OnOk};
ghost use Rattle.std.specs.Fmt.{signed_decimal};
ghost use Rattle.loop_data.specs.Run.{MemoryData, opening_cells};
ghost use Rattle.lines_of_runs.specs.Plain.{cell_line, line_if_changed, stretch_lines};

use itoa::write_digits;
use loop_data::Memory;
use machine_data::OutOfMemory;
use machine_data::limits::MAX_SUBSCRIPT;

/// How many cells of an array stand before cell 0.
const MARGIN: usize = MAX_SUBSCRIPT as usize;

/// How many bytes the longest end of a cell's line has, from `[` on: two numbers of at most 20 bytes each,
/// and four more.
const TAIL: usize = 44;

/// Appends the lines of those cells of the array of a number and a name that a run changed, in ascending
/// order, of the cells from place `from` on and before place `end` in the list of the array's cells. What is
/// written for the array is all that is needed to know its cells before the run.
pub(crate) fn push_cells(
    text: &mut Vec<u8>,
    name: &str,
    number: usize,
    written: &[i64],
    after: &Memory,
    from: usize,
    end: usize,
) -> Result<(), OutOfMemory>
    requires number { number < length after.now.arrays }
    requires order { from ≤ end }
    requires within { end ≤ after.now.trip + 128 }
    ensures { OnOk result ((opening : MemoryData) → get_or opening.arrays number [] ≡ opening_cells after.now.trip written.now
        → text.new.items ≡ text.old.items ++ stretch_lines opening after.now number name.now from end) }
{
    let values = after.cells(number);
    for index in from..end {
        let kept = kept_at(written, index);
        push_changed(
            text,
            name,
            index as i64 - MARGIN as i64,
            kept,
            values[index],
        )?;
    }
    Ok(())
}

/// What the cell at this place in the list of an array's cells holds before a run: what is written for it,
/// or 0.
#[inline(always)]
fn kept_at(written: &[i64], index: usize) -> i64
    ensures { (trip : ℕ) → index < trip + 128 → result ≡ get_or (opening_cells trip written.now) index (pos 0) }
{
    if index < MARGIN || index - MARGIN >= written.len() {
        return 0;
    }
    written[index - MARGIN]
}

/// Appends the line of a cell, where it has another value than before.
fn push_changed(
    text: &mut Vec<u8>,
    name: &str,
    cell: i64,
    kept: i64,
    value: i64,
) -> Result<(), OutOfMemory>
    ensures { OnOk result (text.new.items ≡ text.old.items ++ line_if_changed name.now cell kept value) }
{
    if value == kept {
        return Ok(());
    }
    push_cell(text, name, cell, value)
}

/// Appends the line of a cell.
fn push_cell(text: &mut Vec<u8>, name: &str, cell: i64, value: i64) -> Result<(), OutOfMemory>
    ensures { OnOk result (text.new.items ≡ text.old.items ++ cell_line name.now cell value) }
{
    let mut tail = [0; TAIL];
    let start = write_tail(cell, value, &mut tail);
    text.extend_from_slice(name.as_bytes())?;
    text.extend_from_slice(&tail[start..])
}

/// Writes the end of a cell's line, after the array's name, at the end of a buffer, and returns where it
/// starts.
fn write_tail(cell: i64, value: i64, buffer: &mut [u8]) -> usize
    requires { length buffer.old ≡ 44 }
    ensures within { result ≤ 44 }
    ensures written { drop result buffer.new ≡ codes "[" ++ (signed_decimal cell ++ (codes "] " ++ (signed_decimal value ++ codes "\n"))) }
{
    buffer[TAIL - 1] = b'\n';
    let start = write_signed(value, buffer, TAIL - 1);
    buffer[start - 1] = b' ';
    buffer[start - 2] = b']';
    let first = write_signed(cell, buffer, start - 2);
    buffer[first - 1] = b'[';
    first - 1
}

/// Writes a signed number in decimal digits so that it ends at `end`, and returns where it starts.
fn write_signed(number: i64, buffer: &mut [u8], end: usize) -> usize
    requires room { 20 ≤ end }
    requires within { end ≤ length buffer.old }
    ensures start { result + length (signed_decimal number) ≡ end }
    ensures short { end ≤ result + 20 }
    ensures written { drop result buffer.new ≡ signed_decimal number ++ drop end buffer.old }
{
    let start = write_digits(number.unsigned_abs(), buffer, end);
    if number >= 0 {
        return start;
    }
    buffer[start - 1] = b'-';
    start - 1
}
