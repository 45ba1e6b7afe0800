//! How the operations of a solution are issued.

ghost use Rattle.std.specs.Prelude.{◌≡◌, ◌<◌, length, slice_index};
ghost use Rattle.machine_data.specs.declared.limits.TheConstants.{MAX_STAGES};
ghost use Rattle.mrt.specs.Placements.{rows_of};
ghost use Rattle.schedules.specs.Schedules.{stage_of};
ghost use Rattle.solutions.specs.Solutions.{schedule_of};

use machine_data::Row;
use solutions::Solution;

/// The stage of an operation: how many intervals after the beginning of its iteration it is issued.
pub fn stage_of(solution: &Solution, op: usize) -> u64
    requires { op < length solution.now.problem.scheduling.operations }
    ensures value { result ≡ stage_of (schedule_of solution.now) op }
    ensures few { result < MAX_STAGES }
{
    solution.time(op) / solution.ii()
}

/// The units that an operation holds by the alternative that it is issued by.
pub fn held_rows<'a>(solution: &Solution<'a>, op: usize) -> &'a [Row]
    requires { op < length solution.now.problem.scheduling.operations }
    ensures { result.now ≡ rows_of solution.now.problem.scheduling.operations op (slice_index solution.now.choices op) }
{
    let alternatives = solution.problem().scheduling().alternatives()[op].as_slice();
    alternatives[solution.alternative(op)].rows()
}
