//! One attempt at an interval.

ghost use Rattle.std.specs.Prelude.{◌≡◌, ◌≤◌, ℕ, length, replicate, None, IfOk};
ghost use Rattle.ims.specs.Attempts.{AnswersAttempt};
ghost use Rattle.loop_schedules.specs.Problems.{mii_of, without_loop};
ghost use Rattle.modulo.specs.Attempts as attempts;
ghost use Rattle.machine_data.specs.declared.limits.TheConstants.{MAX_BUDGET, MAX_INTERVAL};

use loop_schedules::{Prepared, Schedule};
use machine_data::OutOfMemory;
use modulo::Failure;
use mrt::ModuloTable;
use std::alloc::Global;

/// What an attempt answers.
#[derive(Drop)]
pub enum Try<'a> {
    /// The schedule that was found.
    Placed(Schedule<'a>),
    /// No schedule, and why.
    Failed(Failure),
}

/// One attempt to schedule a loop at an initiation interval of `ii` cycles, from the least one on and at
/// most 16,384, with at most `budget` placements, 0 to 8,192: iterative modulo scheduling of B. R. Rau,
/// HPL-94-115. The answer does not depend on which table it is made with. Once all memory is there,
/// operations are placed without taking more.
///
/// # Errors
/// [`OutOfMemory`] where memory ran out.
pub fn attempt<'a, T: ModuloTable>(
    alloc: Global,
    prepared: &'a Prepared,
    ii: u64,
    budget: u64,
) -> Result<Try<'a>, OutOfMemory>
    requires from_mii { mii_of prepared.now ≤ ii }
    requires limit { ii ≤ MAX_INTERVAL }
    requires budget { budget ≤ MAX_BUDGET }
    ensures exact { IfOk result (AnswersAttempt prepared.now ii budget) }
{
    let found = modulo::attempt::<T>(alloc, prepared.problem(), ii, budget)?;
    Ok(of_loop(prepared, found))
}

/// [`attempt`] over a table of the loop's operations with nothing placed, at the table's interval. Where intervals
/// are tried one after another, [`ModuloTable::at`] makes the next table from the last one.
///
/// # Errors
/// [`OutOfMemory`] where memory ran out.
pub fn attempt_on<'a, T: ModuloTable>(
    alloc: Global,
    prepared: &'a Prepared,
    table: &mut T,
    budget: u64,
) -> Result<Try<'a>, OutOfMemory>
    requires operations { T.operations table.old ≡ prepared.now.operations }
    requires empty { T.placed table.old ≡ replicate (length prepared.now.operations) None }
    requires from_mii { mii_of prepared.now ≤ T.interval table.old }
    requires limit { T.interval table.old ≤ MAX_INTERVAL }
    requires budget { budget ≤ MAX_BUDGET }
    ensures exact { IfOk result (AnswersAttempt prepared.now (T.interval table.old) budget) }
    ensures operations { T.operations table.new ≡ T.operations table.old }
{
    let found = modulo::attempt_on(alloc, prepared.problem(), table, budget)?;
    Ok(of_loop(prepared, found))
}

/// What is answered of a loop where an attempt at its problem answers this.
fn of_loop<'a>(prepared: &'a Prepared, found: modulo::Try<'a>) -> Try<'a>
    requires { (ii : ℕ) × (budget : ℕ) × attempts.AnswersAttempt (without_loop prepared.now) ii budget found }
    ensures { (ii budget : ℕ) → attempts.AnswersAttempt (without_loop prepared.now) ii budget found.entry → AnswersAttempt prepared.now ii budget result }
{
    match found {
        modulo::Try::Placed(schedule) => Try::Placed(Schedule::of_loop(prepared, schedule)),
        modulo::Try::Failed(failure) => Try::Failed(failure),
    }
}
