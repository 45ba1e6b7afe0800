//! What keeps an attempt from a schedule.

ghost use Rattle.std.specs.Prelude.{◌≤◌, IfOk};
ghost use Rattle.modulo.specs.Culprits.{AnswersCulprit};
ghost use Rattle.schedules.specs.Problems.{mii_of};
ghost use Rattle.machine_data.specs.declared.limits.TheConstants.{MAX_BUDGET, MAX_INTERVAL};

use crate::outcome::answers::{Answer, answer_on};
use crate::outcome::attempts::Culprit;
use machine_data::OutOfMemory;
use mrt::ModuloTable;
use schedules::Problem;
use std::alloc::Global;

/// What keeps an attempt at an interval from a schedule, `None` where it finds one. The attempt is that of
/// [`attempt`](crate::attempt), with the same limits, and is made anew: where its schedule is wanted too, take
/// [`answer_on`].
///
/// # Errors
/// [`OutOfMemory`] where memory ran out.
pub fn culprit<T: ModuloTable>(
    alloc: Global,
    problem: &Problem,
    ii: u64,
    budget: u64,
) -> Result<Option<Culprit>, OutOfMemory>
    requires from_mii { mii_of problem.now ≤ ii }
    requires limit { ii ≤ MAX_INTERVAL }
    requires budget { budget ≤ MAX_BUDGET }
    ensures exact { IfOk result (AnswersCulprit problem.now ii budget) }
{
    prove!(problem.mii() >= 1);
    let mut table = problem.table::<T>(alloc, ii)?;
    match answer_on(alloc, problem, &mut table, budget)? {
        Answer::Placed(_) => Ok(None),
        Answer::Failed(culprit) => Ok(Some(culprit)),
    }
}
