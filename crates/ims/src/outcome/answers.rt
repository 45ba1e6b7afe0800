//! One attempt at an interval, with what keeps it from a schedule.

ghost use Rattle.std.specs.Prelude.{◌≡◌, ◌≤◌, length, replicate, None, IfOk};
ghost use Rattle.ims.specs.Culprits.{IsAnswer};
ghost use Rattle.loop_schedules.specs.Problems.{mii_of};
ghost use Rattle.machine_data.specs.declared.limits.TheConstants.{MAX_BUDGET, MAX_INTERVAL};

use loop_schedules::{Prepared, Schedule};
use machine_data::OutOfMemory;
use modulo::Culprit;
use mrt::ModuloTable;
use std::alloc::Global;

/// What an attempt answers, with what keeps it from a schedule where it finds none.
#[derive(Drop)]
pub enum Answer<'a> {
    /// The schedule that was found.
    Placed(Schedule<'a>),
    /// No schedule, and what keeps the attempt from one.
    Failed(Culprit),
}

/// The attempt of [`attempt_on`](crate::attempt_on), over the same tables and with the same limits, which tells what keeps
/// it from a schedule. It takes memory once more only where operations are not placed in the end, for their list.
///
/// # Errors
/// [`OutOfMemory`] where memory ran out.
pub fn answer_on<'a, T: ModuloTable>(
    alloc: Global,
    prepared: &'a Prepared,
    table: &mut T,
    budget: u64,
) -> Result<Answer<'a>, OutOfMemory>
    requires operations { T.operations table.old ≡ prepared.now.operations }
    requires empty { T.placed table.old ≡ replicate (length prepared.now.operations) None }
    requires from_mii { mii_of prepared.now ≤ T.interval table.old }
    requires limit { T.interval table.old ≤ MAX_INTERVAL }
    requires budget { budget ≤ MAX_BUDGET }
    ensures exact { IfOk result (IsAnswer prepared.now (T.interval table.old) budget) }
    ensures operations { T.operations table.new ≡ T.operations table.old }
{
    match modulo::answer_on(alloc, prepared.problem(), table, budget)? {
        modulo::Answer::Placed(schedule) => {
            Ok(Answer::Placed(Schedule::of_loop(prepared, schedule)))
        }
        modulo::Answer::Failed(culprit) => Ok(Answer::Failed(culprit)),
    }
}
