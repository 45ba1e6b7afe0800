//! One attempt at an interval, with what keeps it from a schedule.

ghost use Rattle.std.specs.Prelude.{◌≡◌, ◌≤◌, ℕ, length, replicate, is_none, filter, None, IfOk};
ghost use Rattle.std.specs.List.{range_with_len};
ghost use Rattle.edges.specs.Schedules.{IsLawfulSchedule};
ghost use Rattle.mrt.specs.Placements.{placement_of};
ghost use Rattle.modulo.specs.Attempts.{IsBlocked, EndsPlaced};
ghost use Rattle.modulo.specs.Culprits.{IsAnswer};
ghost use Rattle.schedules.specs.Problems.{IsProblem, mii_of};
ghost use Rattle.machine_data.specs.declared.limits.TheConstants.{MAX_BUDGET, MAX_INTERVAL};

use crate::outcome::attempts::Culprit;
use crate::outcome::ending::{End, end_on, first_late};
use crate::stepping::progress::Progress;
use machine_data::OutOfMemory;
use mrt::ModuloTable;
use schedules::{Problem, Schedule};
use std::alloc::Global;

/// What an attempt answers, with what keeps it from a schedule where it finds none.
#[derive(Drop)]
pub enum Answer<'a> {
    /// The schedule that was found.
    Placed(Schedule<'a>),
    /// No schedule, and what keeps the attempt from one.
    Failed(Culprit),
}

/// The attempt of [`attempt_on`](crate::attempt_on), over the same tables and with the same limits, which tells what keeps
/// it from a schedule. It takes memory once more only where operations are not placed in the end, for their list.
///
/// # Errors
/// [`OutOfMemory`] where memory ran out.
pub fn answer_on<'a, T: ModuloTable>(
    alloc: Global,
    problem: &'a Problem,
    table: &mut T,
    budget: u64,
) -> Result<Answer<'a>, OutOfMemory>
    requires operations { T.operations table.old ≡ problem.now.operations }
    requires empty { T.placed table.old ≡ replicate (length problem.now.operations) None }
    requires from_mii { mii_of problem.now ≤ T.interval table.old }
    requires limit { T.interval table.old ≤ MAX_INTERVAL }
    requires budget { budget ≤ MAX_BUDGET }
    ensures exact { IfOk result (IsAnswer problem.now (T.interval table.old) budget) }
    ensures operations { T.operations table.new ≡ T.operations table.old }
{
    let operations = problem.operations();
    let ii = table.ii();
    match end_on(alloc, problem, table, budget)? {
        End::Blocked(op) => Ok(Answer::Failed(Culprit::Blocked(op))),
        End::Short(progress) => {
            let ops = unplaced(alloc, &progress, operations)?;
            Ok(Answer::Failed(Culprit::Unplaced(ops)))
        }
        End::Full(times, choices) => Ok(in_stages(problem, ii, times, choices)),
    }
}

/// What is answered where all operations are placed, at these times and by these alternatives.
fn in_stages<'a>(problem: &'a Problem, ii: u64, times: Vec<u64>, choices: Vec<usize>) -> Answer<'a>
    requires whole { IsProblem problem.now }
    requires some { 1 ≤ ii }
    requires limit { ii ≤ MAX_INTERVAL }
    requires lawful { IsLawfulSchedule ii problem.now.operations problem.now.graph.edges times.items choices.items }
    ensures { (budget : ℕ) → EndsPlaced problem.now ii budget times.items choices.items → (IsBlocked problem.now ii → ⊥) → IsAnswer problem.now ii budget result }
{
    match first_late(&times, ii) {
        Some(op) => Answer::Failed(Culprit::Late(op, times[op])),
        None => Answer::Placed(Schedule::new(problem, ii, times, choices)),
    }
}

/// The operations that are not placed, in order.
fn unplaced(
    alloc: Global,
    progress: &Progress,
    operations: usize,
) -> Result<Vec<usize>, OutOfMemory>
    requires { operations ≡ length progress.now.state.placed }
    ensures { IfOk result (λ ops. ops.items ≡ filter (λ op. is_none (placement_of progress.now.state.placed op)) (range_with_len 0 operations)) }
{
    let mut ops = Vec::new(alloc);
    for op in 0..operations {
        if progress.placement(op).is_none() {
            ops.push(op)?;
        }
    }
    Ok(ops)
}
