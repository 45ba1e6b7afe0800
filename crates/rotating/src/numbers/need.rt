//! How many registers the values of a schedule need.

ghost use Rattle.std.specs.Prelude.{ℕ, ◌<◌, ◌≤◌, IfOk, length};
ghost use Rattle.std.specs.List.{All};
ghost use Rattle.machine_data.specs.declared.limits.TheConstants.{MAX_INTERVAL};
ghost use Rattle.registers.specs.Allotments.{HaveNone};
ghost use Rattle.registers.specs.Residues.{IsLifeSpan};
ghost use Rattle.rotating.specs.Needs.{IsNeed};

use crate::numbers::allotment::zeros;
use crate::values::lifetime::lifetimes;
use loop_schedules::Schedule;
use machine_data::OutOfMemory;
use machine_data::limits::MAX_REGISTERS;
use overlap::Lifetime;
use registers::{crowd_in, find_least};
use std::alloc::Global;

/// How many instances live in one cycle: that of the row in which the middle one of these values begins. Most rows
/// have nearly as many as the fullest one, so that few numbers of registers are left to be tried.
fn middle_crowd(ii: u64, lives: &[Lifetime]) -> u64
    requires some { 1 ≤ ii }
    requires few { ii ≤ MAX_INTERVAL }
    requires lives { All IsLifeSpan lives.now }
    requires few_lives { length lives.now ≤ 256 }
    ensures { (number : ℕ) → 1 ≤ number → number < result → HaveNone ii number lives.now }
{
    match lives.get(lives.len() / 2) {
        Some(life) => crowd_in(ii, life.first % ii, lives),
        None => 0,
    }
}

/// The least number of rotating registers for which [`allot`](crate::allot) finds an allotment; `None` where it finds none
/// for any number up to the greatest that a machine may have.
///
/// # Errors
/// [`OutOfMemory`] where memory ran out.
pub fn least_registers(alloc: Global, schedule: &Schedule) -> Result<Option<u64>, OutOfMemory>
    ensures { IfOk result (IsNeed schedule.now) }
{
    let ii = schedule.ii();
    let lives = lifetimes(alloc, schedule)?;
    let listed = lives.as_slice();
    let mut numbers = zeros(alloc, listed.len())?;
    // (with fewer registers than values that live at once, some value has none)
    let least = middle_crowd(ii, listed).saturating_sub(1) as usize;
    for fewer in least..usize::from(MAX_REGISTERS) {
        let registers = fewer + 1;
        let found = find_least(alloc, ii, registers, listed, numbers.as_mut_slice())?;
        if found {
            return Ok(Some(registers as u64));
        }
    }
    Ok(None)
}
