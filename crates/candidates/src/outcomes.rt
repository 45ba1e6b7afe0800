//! What an interval gives.

ghost use Rattle.std.specs.Prelude.{◌≡◌, ◌≤◌, length, replicate, None, IfOk, MatchOption};
ghost use Rattle.loop_schedules.specs.Problems.{IsProblem, budget_of, mii_of};
ghost use Rattle.overlap.specs.Allotments.{NoneFor};
ghost use Rattle.candidates.specs.Choices.{last_of};
ghost use Rattle.candidates.specs.Outcomes.{Gives, HasKernel};
ghost use Rattle.loop_listings.specs.Causes.{cause_of};

use crate::trials::Trials;
use ims::{Failure, Try, attempt_on};
use kernel::Kernel;
use loop_listings::Cause;
use loop_schedules::{Prepared, Schedule};
use machine_data::OutOfMemory;
use mrt::DefaultTable;
use rotating::{allot, emit};
use std::alloc::Global;

/// What an interval gives.
#[derive(Drop)]
pub enum Outcome {
    /// A kernel.
    Met(Kernel),
    /// None, and why.
    Failed(Cause),
}

/// What a loop gives at an interval, in cycles, from its least one on and at most as far above it as its
/// ceiling says: the kernel of one budgeted attempt and of the least registers of its values, or why there
/// is none.
///
/// # Errors
/// Memory ran out.
pub fn try_interval(alloc: Global, prepared: &Prepared, ii: u64) -> Result<Outcome, OutOfMemory>
    requires from_mii { mii_of prepared.now ≤ ii }
    requires to_last { ii ≤ last_of prepared.now }
    ensures exact { IfOk result (Gives prepared.now ii) }
{
    Trials::of(prepared).try_interval(alloc, ii)
}

/// What a loop gives at the interval of a table of its operations, with nothing placed.
pub(crate) fn outcome_on(
    alloc: Global,
    prepared: &Prepared,
    table: &mut DefaultTable,
) -> Result<Outcome, OutOfMemory>
    requires operations { table.old.operations ≡ prepared.now.operations }
    requires empty { table.old.placed ≡ replicate (length prepared.now.operations) None }
    requires from_mii { mii_of prepared.now ≤ table.old.interval }
    requires to_last { table.old.interval ≤ last_of prepared.now }
    ensures exact { IfOk result (Gives prepared.now table.old.interval) }
    ensures operations { table.new.operations ≡ table.old.operations }
{
    match attempt_on(alloc, prepared, table, budget(prepared))? {
        Try::Placed(schedule) => match kernel_of(alloc, &schedule)? {
            Some(kernel) => Ok(Outcome::Met(kernel)),
            None => Ok(Outcome::Failed(Cause::Registers)),
        },
        Try::Failed(failure) => Ok(Outcome::Failed(cause_of(failure))),
    }
}

/// The budget of an attempt at an interval of a loop, in placements, 1 to 8,192: the loop's ratio times the number of its operations.
pub fn budget(prepared: &Prepared) -> u64
    ensures value { result ≡ budget_of prepared.now }
    ensures few { result ≤ 8192 }
    ensures well_formed { IsProblem prepared.now }
{
    let operations = prepared.operations() as u64;
    prove!(operations <= 128);
    prepared.ratio() * operations
}

/// The cause that a failed attempt is.
fn cause_of(failure: Failure) -> Cause
    ensures { result ≡ cause_of failure }
{
    match failure {
        Failure::Table => Cause::Table,
        Failure::Budget => Cause::Budget,
        Failure::Stages => Cause::Stages,
    }
}

/// The kernel of a schedule, with the least registers of its values, where each of them has one.
fn kernel_of(alloc: Global, schedule: &Schedule) -> Result<Option<Kernel>, OutOfMemory>
    ensures { IfOk result (λ found. MatchOption found (NoneFor schedule.now schedule.now.problem.registers) (HasKernel schedule.now)) }
{
    let prepared = schedule.prepared();
    let Some(allotment) = allot(alloc, schedule, u64::from(prepared.registers()))? else {
        return Ok(None);
    };
    let kernel = emit(alloc, prepared.innermost(), schedule, &allotment)?;
    Ok(Some(kernel))
}
