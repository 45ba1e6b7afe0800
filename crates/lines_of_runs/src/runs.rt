//! The lines of a run.

ghost use Rattle.std.specs.Prelude.{◌≡◌, ◌+◌, ◌<◌, ◌≤◌, ◌++◌, [], get_or, length, slice_index_or, IfOk, OnOk, IsErrOf, Ok};
ghost use Rattle.loop_data.specs.declared.language.lists.Array.{Array};
ghost use Rattle.loop_data.specs.Run.{HasShapeOf, MemoryData, opening_cells, opening_of};
ghost use Rattle.lines_of_runs.specs.Plain.{run_line, out_line, array_lines, cell_lines, out_lines, run_lines, stretch_lines};

use crate::cells::push_cells;
use loop_data::{Array, Loop, Memory, RunFault};
use machine_data::OutOfMemory;
use writing::{Text, push_both, push_signed, push_told};

/// The answer of a run that only lack of memory can refuse.
///
/// # Errors
/// Memory was refused to the run.
pub fn within_limits(answer: Result<Memory, RunFault>) -> Result<Memory, OutOfMemory>
    requires trip { ¬ IsErrOf answer RunFault.Trip }
    requires shape { ¬ IsErrOf answer RunFault.Shape }
    ensures { IfOk result (λ memory. answer ≡ Ok memory) }
{
    match answer {
        Ok(memory) => Ok(memory),
        Err(fault) => match fault {
            RunFault::Memory => Err(std::alloc::AllocError),
            RunFault::Trip | RunFault::Shape => unreachable!(),
        },
    }
}

/// Appends the lines of a run of a loop from its opening memory to this one.
///
/// # Errors
/// Memory was refused. The text is left with a part of that.
pub fn push_run(text: &mut Vec<u8>, innermost: &Loop, after: &Memory) -> Result<(), OutOfMemory>
    requires { HasShapeOf innermost.now after.now }
    ensures { OnOk result (text.new.items ≡ text.old.items ++ run_lines innermost.now (opening_of innermost.now after.now.trip) after.now) }
{
    push_head(text, innermost, after.trip())?;
    push_arrays(text, innermost, after)?;
    push_outs(text, innermost, after)
}

/// Appends the line that names a loop and its trip count: the first line of a run.
///
/// # Errors
/// Memory was refused. The text is left with a part of that.
pub fn push_head(text: &mut Vec<u8>, innermost: &Loop, trip: u64) -> Result<(), OutOfMemory>
    ensures { OnOk result (text.new.items ≡ text.old.items ++ run_line innermost.now.name trip) }
{
    push_both(text, "loop ", innermost.name().as_str())?;
    push_told(text, " trip ", trip)?;
    text.push_piece("\n")
}

/// Appends the lines of the cells of all arrays that a run changed, in order.
fn push_arrays(text: &mut Vec<u8>, innermost: &Loop, after: &Memory) -> Result<(), OutOfMemory>
    requires { length after.now.arrays ≡ length innermost.now.arrays }
    ensures { OnOk result (text.new.items ≡ text.old.items ++ array_lines innermost.now (opening_of innermost.now after.now.trip) after.now) }
{
    let arrays = innermost.arrays();
    for number in 0..arrays.len() {
        push_array(text, &arrays[number], number, after)?;
    }
    Ok(())
}

/// Appends the lines of the cells of an array that a run changed.
fn push_array(
    text: &mut Vec<u8>,
    array: &Array,
    number: usize,
    after: &Memory,
) -> Result<(), OutOfMemory>
    requires { number < length after.now.arrays }
    ensures { OnOk result ((opening : MemoryData) → get_or opening.arrays number [] ≡ opening_cells after.now.trip array.now.cells
        → text.new.items ≡ text.old.items ++ cell_lines opening after.now number array.now.name) }
{
    let end = after.cells(number).len();
    push_cells(
        text,
        array.name.as_str(),
        number,
        array.cells.as_slice(),
        after,
        0,
        end,
    )
}

/// Appends the lines of those cells of the array of this number that a run changed, in ascending order, of the cells from
/// place `from` on and before place `end`. The cell -64 has place 0, and there are 128 more places than iterations.
///
/// # Errors
/// Memory was refused. The text is left with a part of that.
pub fn push_stretch(
    text: &mut Vec<u8>,
    innermost: &Loop,
    after: &Memory,
    number: usize,
    from: usize,
    end: usize,
) -> Result<(), OutOfMemory>
    requires shape { HasShapeOf innermost.now after.now }
    requires number { number < length after.now.arrays }
    requires order { from ≤ end }
    requires within { end ≤ after.now.trip + 128 }
    ensures { OnOk result ((d : Array) → text.new.items ≡ text.old.items ++ stretch_lines (opening_of innermost.now after.now.trip) after.now number (slice_index_or innermost.now.arrays number d).name from end) }
{
    let array = &innermost.arrays()[number];
    push_cells(
        text,
        array.name.as_str(),
        number,
        array.cells.as_slice(),
        after,
        from,
        end,
    )
}

/// Appends the lines of the values that are live at the end, in order: the last lines of a run.
///
/// # Errors
/// Memory was refused. The text is left with a part of that.
pub fn push_outs(text: &mut Vec<u8>, innermost: &Loop, after: &Memory) -> Result<(), OutOfMemory>
    requires { length after.now.outs ≡ length innermost.now.outs }
    ensures { OnOk result (text.new.items ≡ text.old.items ++ out_lines innermost.now after.now) }
{
    let statements = innermost.outs();
    for index in 0..statements.len() {
        let name = innermost.value_name(statements[index]);
        push_out(text, name, after.out(index))?;
    }
    Ok(())
}

/// Appends the line of a value that is live at the end.
fn push_out(text: &mut Vec<u8>, name: &str, value: i64) -> Result<(), OutOfMemory>
    ensures { OnOk result (text.new.items ≡ text.old.items ++ out_line name.now value) }
{
    push_both(text, "out ", name)?;
    push_signed(text, " ", value)?;
    text.push_piece("\n")
}
