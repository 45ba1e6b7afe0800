//! The lines of the lower bounds of loops.

ghost use Rattle.std.specs.Prelude.{◌≡◌, ◌++◌, Vec, ℕ, OnOk};
ghost use Rattle.std.specs.Global.{Global};
ghost use Rattle.graph.specs.Units.{first_lacking};
ghost use Rattle.lower_bounds.specs.Bounds.{IsLines, bounds_line, bounds_told};
ghost use Rattle.lower_bounds.specs.Faults.{TextAnswers};

use crate::fault::TextFault;
use crate::measuring::{LowerBounds, measure};
use loop_data::Loop;
use machine_data::{Machine, OutOfMemory};
use std::alloc::Global;
use walks::mii;
use writing::{Text, push_both, push_told};

/// A guess of how many bytes a line takes, for the first reservation.
const LINE: usize = 64;

/// Appends the bounds of a loop's interval, in cycles, and the greater of the two: ` res R rec C mii M`.
///
/// # Errors
/// [`OutOfMemory`] where memory ran out. The text is left with a part of that.
pub fn push_bounds_told(text: &mut Vec<u8>, bounds: LowerBounds) -> Result<(), OutOfMemory>
    ensures ok { OnOk result (text.new.items ≡ text.old.items ++ bounds_told bounds) }
{
    push_told(text, " res ", bounds.resources)?;
    push_told(text, " rec ", bounds.recurrences)?;
    push_told(text, " mii ", mii(bounds.resources, bounds.recurrences))
}

/// Appends the line of a loop with its lower bounds, as [`bounds_lines`] writes it.
///
/// # Errors
/// [`OutOfMemory`] where memory ran out. The text is left with a part of the line.
pub fn push_bounds_line(
    text: &mut Vec<u8>,
    innermost: &Loop,
    bounds: LowerBounds,
) -> Result<(), OutOfMemory>
    ensures ok { OnOk result (text.new.items ≡ text.old.items ++ bounds_line innermost.now bounds) }
{
    push_both(text, "loop ", innermost.name().as_str())?;
    push_told(text, " ops ", innermost.statements().len() as u64)?;
    push_bounds_told(text, bounds)?;
    text.push_piece("\n")
}

/// A line for each loop, in order, `loop NAME ops O res R rec C mii M`: the number of its statements, its
/// lower bounds in cycles by the units of the machine and by its recurrences, and the greater of the two.
///
/// # Errors
/// [`TextFault::NoTable`] for the first statement whose opcode the machine has no table for, and
/// [`TextFault::Memory`] where memory ran out.
pub fn bounds_lines(alloc: Global, machine: &Machine, loops: &[Loop]) -> Result<Vec<u8>, TextFault>
    ensures exact { TextAnswers (first_lacking machine.now loops.now) (λ (text : Vec ℕ Global). IsLines machine.now loops.now text.items) result }
{
    let mut text = Vec::with_capacity(alloc, LINE * (loops.len() + 1))?;
    for innermost in loops {
        let measured = measure(alloc, machine, innermost)?;
        push_bounds_line(&mut text, innermost, measured.bounds)?;
    }
    Ok(text)
}
