//! The least number of registers with which a loop has its interval.

ghost use Rattle.std.specs.Prelude.{◌≤◌, ◌<◌, ◌+◌, ℕ, length, Some, IfOk, MatchBool};
ghost use Rattle.loop_schedules.specs.Problems.{mii_of};
ghost use Rattle.variants.specs.Intervals.{IsIntervalOf, IsLeastNumber};
ghost use Rattle.variants.specs.Findings.{IsOn};
ghost use Rattle.variants.specs.inner.Tries.{AreFailing, AreTries, IsGiving, with_registers};
ghost use Rattle.machine_data.specs.declared.limits.TheConstants.{MAX_REGISTERS};

use crate::search::tries::gives;
use ims::Try;
use loop_schedules::Prepared;
use machine_data::{Machine, OutOfMemory};
use std::alloc::Global;

/// Whether one of the first `count` attempts gives a kernel with `registers` registers, 1 to 256.
fn some_gives(
    alloc: Global,
    prepared: &Prepared,
    tries: &[Try],
    count: usize,
    registers: u16,
) -> Result<bool, OutOfMemory>
    requires some { 1 ≤ registers }
    requires few { registers ≤ MAX_REGISTERS }
    requires are { AreTries prepared.now tries.now }
    requires count { count ≤ length tries.now }
    ensures { IfOk result (λ some. MatchBool some ((above : ℕ) × (above < count) × IsGiving (with_registers registers prepared.now) (mii_of prepared.now + above)) (AreFailing (with_registers registers prepared.now) count)) }
{
    for index in 0..count {
        match gives(alloc, &tries[index], registers) {
            Err(fault) => return Err(fault),
            Ok(gives) => {
                if gives {
                    return Ok(true);
                }
            }
        }
    }
    Ok(false)
}

/// Whether a loop has the interval `above` cycles above the least one where there are `registers` registers, 1 to 256.
fn has_interval(
    alloc: Global,
    prepared: &Prepared,
    tries: &[Try],
    above: usize,
    registers: u16,
) -> Result<bool, OutOfMemory>
    requires some { 1 ≤ registers }
    requires few { registers ≤ MAX_REGISTERS }
    requires are { AreTries prepared.now tries.now }
    requires there { above < length tries.now }
    requires within { above ≤ prepared.now.ceiling }
    ensures { IfOk result (λ has. MatchBool has (IsIntervalOf (with_registers registers prepared.now) (Some (mii_of prepared.now + above))) (IsIntervalOf (with_registers registers prepared.now) (Some (mii_of prepared.now + above)) → ⊥)) }
{
    prove!(prepared.mii() >= 1);
    if !gives(alloc, &tries[above], registers)? {
        return Ok(false);
    }
    Ok(!some_gives(alloc, prepared, tries, above, registers)?)
}

/// The least number of registers with which a loop has its interval, `above` cycles above the least one.
pub(crate) fn least_number(
    alloc: Global,
    machine: &Machine,
    prepared: &Prepared,
    tries: &[Try],
    above: usize,
) -> Result<u16, OutOfMemory>
    requires on { IsOn machine.now prepared.now }
    requires are { AreTries prepared.now tries.now }
    requires there { above < length tries.now }
    requires within { above ≤ prepared.now.ceiling }
    requires has { IsIntervalOf prepared.now (Some (mii_of prepared.now + above)) }
    ensures { IfOk result (IsLeastNumber machine.now prepared.now (mii_of prepared.now + above)) }
{
    for registers in 1..prepared.registers() {
        match has_interval(alloc, prepared, tries, above, registers) {
            Err(fault) => return Err(fault),
            Ok(has) => {
                if has {
                    return Ok(registers);
                }
            }
        }
    }
    Ok(prepared.registers())
}
