//! The interval of a loop with any number of registers.

ghost use Rattle.std.specs.Prelude.{◌≤◌, ◌<◌, ◌+◌, vec_len, IfOk, MatchBool};
ghost use Rattle.loop_schedules.specs.Problems.{mii_of};
ghost use Rattle.variants.specs.Intervals.{IsIntervalOf};
ghost use Rattle.variants.specs.inner.Tries.{AreTries, IsCovered, IsFailing, IsGiving, with_registers};
ghost use Rattle.machine_data.specs.declared.limits.TheConstants.{MAX_REGISTERS};

use crate::search::tries::{add_try, gives};
use ims::Try;
use loop_schedules::Prepared;
use machine_data::OutOfMemory;
use std::alloc::Global;

/// Whether the interval `above` cycles above the least one gives a kernel with `registers` registers.
fn gives_above<'a>(
    alloc: Global,
    prepared: &'a Prepared,
    tries: &mut Vec<Try<'a>>,
    above: u64,
    registers: u16,
) -> Result<bool, OutOfMemory>
    requires some { 1 ≤ registers }
    requires few { registers ≤ MAX_REGISTERS }
    requires above { above ≤ prepared.now.ceiling }
    requires next { above ≤ vec_len tries.old }
    requires are { AreTries prepared.now tries.old.items }
    ensures are { AreTries prepared.now tries.new.items }
    ensures there { IfOk result (λ gives. above < vec_len tries.new) }
    ensures exact { IfOk result (λ gives. MatchBool gives (IsGiving (with_registers registers prepared.now) (mii_of prepared.now + above)) (IsFailing (with_registers registers prepared.now) (mii_of prepared.now + above))) }
{
    add_try(alloc, prepared, tries, above)?;
    gives(alloc, &tries[above as usize], registers)
}

/// The interval that is chosen for a loop with `registers` registers, 1 to 256, where one is. Attempts that are made are kept.
pub(crate) fn interval_with<'a>(
    alloc: Global,
    prepared: &'a Prepared,
    tries: &mut Vec<Try<'a>>,
    registers: u16,
) -> Result<Option<u64>, OutOfMemory>
    requires some { 1 ≤ registers }
    requires few { registers ≤ MAX_REGISTERS }
    requires are { AreTries prepared.now tries.old.items }
    ensures are { AreTries prepared.now tries.new.items }
    ensures there { IfOk result (λ interval. IsCovered prepared.now interval (vec_len tries.new)) }
    ensures exact { IfOk result (IsIntervalOf (with_registers registers prepared.now)) }
{
    for above in 0..prepared.ceiling() + 1 {
        match gives_above(alloc, prepared, tries, above, registers) {
            Err(fault) => return Err(fault),
            Ok(gives) => {
                if gives {
                    return Ok(Some(prepared.mii() + above));
                }
            }
        }
    }
    Ok(None)
}

/// The interval that is chosen for a loop, where one is.
pub(crate) fn interval_of(alloc: Global, prepared: &Prepared) -> Result<Option<u64>, OutOfMemory>
    ensures { IfOk result (IsIntervalOf prepared.now) }
{
    let mut tries = Vec::new(alloc);
    interval_with(alloc, prepared, &mut tries, prepared.registers())
}
