//! The line of a problem with its bounds.

ghost use Rattle.std.specs.Prelude.{◌≡◌, ◌++◌, OnOk};
ghost use Rattle.problem_graphs.specs.Heads.{bounds_told, problem_line};

use machine_data::OutOfMemory;
use problems::Problem;
use writing::{Text, push_both, push_told};

/// Appends the bounds, each after its word.
pub(crate) fn push_bounds(
    text: &mut Vec<u8>,
    scheduling: &schedules::Problem,
) -> Result<(), OutOfMemory>
    ensures ok { OnOk result (text.new.items ≡ text.old.items ++ bounds_told scheduling.now) }
{
    push_told(text, " res ", scheduling.resources())?;
    push_told(text, " rec ", scheduling.recurrences())?;
    push_told(text, " mii ", scheduling.mii())
}

/// Appends the line of a problem, `problem NAME ops O res R rec C mii M`: how many operations it has, the two lower bounds of
/// its interval, by the units and by the recurrences, and the greater one, in cycles.
///
/// # Errors
/// [`OutOfMemory`] where memory ran out. The text is left with a part of the line.
pub fn push_problem_line(
    text: &mut Vec<u8>,
    name: &str,
    problem: &Problem,
) -> Result<(), OutOfMemory>
    ensures ok { OnOk result (text.new.items ≡ text.old.items ++ problem_line name.now problem.now) }
{
    let scheduling = problem.scheduling();
    push_both(text, "problem ", name)?;
    push_told(text, " ops ", scheduling.operations() as u64)?;
    push_bounds(text, scheduling)?;
    text.push_piece("\n")
}
