//! One attempt at an interval.

ghost use Rattle.std.specs.Prelude.{◌≡◌, ◌≤◌, ℕ, length, replicate, None, IfOk};
ghost use Rattle.edges.specs.Schedules.{IsLawfulSchedule};
ghost use Rattle.schedules.specs.Problems.{IsProblem, mii_of};
ghost use Rattle.modulo.specs.Attempts.{IsBlocked, EndsPlaced, AnswersAttempt};
ghost use Rattle.machine_data.specs.declared.limits.TheConstants.{MAX_BUDGET, MAX_INTERVAL};

use crate::outcome::ending::{End, end_on, first_late};
use machine_data::OutOfMemory;
use mrt::ModuloTable;
use schedules::{Problem, Schedule};
use std::alloc::Global;

/// Why an attempt at an interval found no schedule: the first of these causes that holds.
#[derive(Clone, Copy, PartialEq, Eq)]
pub enum Failure {
    /// All alternatives of some operation collide with themselves at the interval; nothing was placed.
    Table,
    /// As many operations were placed as the budget allows, and one is not placed in the end.
    Budget,
    /// All operations were placed, one of them in stage 64 or later.
    Stages,
}

/// What an attempt answers.
#[derive(Drop)]
pub enum Try<'a> {
    /// The schedule that was found.
    Placed(Schedule<'a>),
    /// No schedule, and why.
    Failed(Failure),
}

/// What keeps an attempt from a schedule.
#[derive(Drop)]
pub enum Culprit {
    /// The first operation all of whose alternatives collide with themselves at the interval.
    Blocked(usize),
    /// The operations that are not placed when the budget is used up, in order.
    Unplaced(Vec<usize>),
    /// The first operation in stage 64 or later, and when it is issued, in cycles from the beginning of its
    /// iteration.
    Late(usize, u64),
}

/// One attempt to solve a problem at an initiation interval of `ii` cycles, from the least one on and at
/// most 16,384, with at most `budget` placements, 0 to 8,192: iterative modulo scheduling of B. R. Rau,
/// HPL-94-115. The answer does not depend on which table it is made with. Once all memory is there,
/// operations are placed without taking more.
///
/// # Errors
/// [`OutOfMemory`] where memory ran out.
pub fn attempt<'a, T: ModuloTable>(
    alloc: Global,
    problem: &'a Problem,
    ii: u64,
    budget: u64,
) -> Result<Try<'a>, OutOfMemory>
    requires from_mii { mii_of problem.now ≤ ii }
    requires limit { ii ≤ MAX_INTERVAL }
    requires budget { budget ≤ MAX_BUDGET }
    ensures exact { IfOk result (AnswersAttempt problem.now ii budget) }
{
    prove!(problem.mii() >= 1);
    let mut table = problem.table::<T>(alloc, ii)?;
    attempt_on(alloc, problem, &mut table, budget)
}

/// [`attempt`] over a table of the problem's operations with nothing placed, at the table's interval. Where intervals
/// are tried one after another, [`ModuloTable::at`] makes the next table from the last one.
///
/// # Errors
/// [`OutOfMemory`] where memory ran out.
pub fn attempt_on<'a, T: ModuloTable>(
    alloc: Global,
    problem: &'a Problem,
    table: &mut T,
    budget: u64,
) -> Result<Try<'a>, OutOfMemory>
    requires operations { T.operations table.old ≡ problem.now.operations }
    requires empty { T.placed table.old ≡ replicate (length problem.now.operations) None }
    requires from_mii { mii_of problem.now ≤ T.interval table.old }
    requires limit { T.interval table.old ≤ MAX_INTERVAL }
    requires budget { budget ≤ MAX_BUDGET }
    ensures exact { IfOk result (AnswersAttempt problem.now (T.interval table.old) budget) }
    ensures operations { T.operations table.new ≡ T.operations table.old }
{
    prove!(problem.operations() >= 1);
    let ii = table.ii();
    match end_on(alloc, problem, table, budget)? {
        End::Blocked(_) => Ok(Try::Failed(Failure::Table)),
        End::Short(_) => Ok(Try::Failed(Failure::Budget)),
        End::Full(times, choices) => Ok(answer(problem, ii, times, choices)),
    }
}

/// What is answered where all operations are placed, at these times and by these alternatives.
fn answer<'a>(problem: &'a Problem, ii: u64, times: Vec<u64>, choices: Vec<usize>) -> Try<'a>
    requires whole { IsProblem problem.now }
    requires some { 1 ≤ ii }
    requires limit { ii ≤ MAX_INTERVAL }
    requires lawful { IsLawfulSchedule ii problem.now.operations problem.now.graph.edges times.items choices.items }
    ensures { (budget : ℕ) → EndsPlaced problem.now ii budget times.items choices.items → (IsBlocked problem.now ii → ⊥) → AnswersAttempt problem.now ii budget result }
{
    match first_late(&times, ii) {
        Some(_) => Try::Failed(Failure::Stages),
        None => Try::Placed(Schedule::new(problem, ii, times, choices)),
    }
}
