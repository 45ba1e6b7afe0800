//! The attempts at a loop's intervals, each made once.

ghost use Rattle.std.specs.Prelude.{◌≡◌, ◌≤◌, ◌<◌, ℕ, vec_len, IfOk, OnOk, MatchBool};
ghost use Rattle.ims.specs.Attempts.{AnswersAttempt};
ghost use Rattle.loop_schedules.specs.Problems.{ProblemData, IsProblem, budget_of};
ghost use Rattle.variants.specs.inner.Tries.{AreTries, IsFailing, IsGiving, with_registers};
ghost use Rattle.machine_data.specs.declared.limits.TheConstants.{MAX_REGISTERS};

use ims::{Try, attempt};
use loop_schedules::Prepared;
use machine_data::OutOfMemory;
use mrt::DefaultTable;
use rotating::allot;
use std::alloc::Global;

/// How many placements an attempt may make.
fn budget(prepared: &Prepared) -> u64
    ensures value { result ≡ budget_of prepared.now }
    ensures few { result ≤ 8192 }
    ensures well_formed { IsProblem prepared.now }
{
    let operations = prepared.operations() as u64;
    prove!(operations <= 128);
    prepared.ratio() * operations
}

/// Makes the attempt at the interval `above` cycles above the least one, where it is not made yet.
pub(crate) fn add_try<'a>(
    alloc: Global,
    prepared: &'a Prepared,
    tries: &mut Vec<Try<'a>>,
    above: u64,
) -> Result<(), OutOfMemory>
    requires above { above ≤ prepared.now.ceiling }
    requires next { above ≤ vec_len tries.old }
    requires are { AreTries prepared.now tries.old.items }
    ensures are { AreTries prepared.now tries.new.items }
    ensures there { OnOk result (above < vec_len tries.new) }
{
    if (above as usize) < tries.len() {
        return Ok(());
    }
    let made = attempt::<DefaultTable>(alloc, prepared, prepared.mii() + above, budget(prepared))?;
    tries.push(made)?;
    Ok(())
}

/// Whether an attempt gives a kernel with `registers` registers, 1 to 256.
pub(crate) fn gives(alloc: Global, made: &Try, registers: u16) -> Result<bool, OutOfMemory>
    requires some { 1 ≤ registers }
    requires few { registers ≤ MAX_REGISTERS }
    ensures { (problem : ProblemData) (ii : ℕ) → AnswersAttempt problem ii (budget_of problem) made.now → IfOk result (λ gives. MatchBool gives (IsGiving (with_registers registers problem) ii) (IsFailing (with_registers registers problem) ii)) }
{
    match made {
        Try::Placed(schedule) => {
            let count = u64::from(registers);
            let found = allot(alloc, schedule, count)?;
            Ok(found.is_some())
        }
        Try::Failed(_) => Ok(false),
    }
}
