//! The choice of a loop.

ghost use Rattle.std.specs.Prelude.{IfOk};
ghost use Rattle.candidates.specs.Choices.{IsChoice};

use crate::outcomes::Outcome;
use crate::trials::Trials;
use loop_listings::{Cause, Choice};
use loop_schedules::Prepared;
use machine_data::OutOfMemory;
use std::alloc::Global;

/// The choice of a loop: its least interval that gives a kernel, tried one after another.
///
/// # Errors
/// Memory ran out.
pub fn first_success(alloc: Global, prepared: &Prepared) -> Result<Choice, OutOfMemory>
    ensures exact { IfOk result (IsChoice prepared.now) }
{
    let mut trials = Trials::of(prepared);
    let mut last = Cause::Table;
    for above in 0..prepared.ceiling() + 1 {
        let ii = prepared.mii() + above;
        match trials.try_interval(alloc, ii) {
            Err(fault) => return Err(fault),
            Ok(Outcome::Met(kernel)) => return Ok(Choice::Met(ii, kernel)),
            Ok(Outcome::Failed(cause)) => last = cause,
        }
    }
    Ok(Choice::Failed(last))
}
