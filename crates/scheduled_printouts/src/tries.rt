//! The intervals of a loop, tried one after another.

ghost use Rattle.std.specs.Prelude.{◌≡◌, IfOk};
ghost use Rattle.scheduled_printouts.specs.inner.LastTried.{IsLastTried, gives_kernel};

use loop_schedules::Prepared;
use machine::OutOfMemory;
use std::alloc::Global;
use told_intervals::{ToldTrials, Tried};

/// Tries a loop's intervals one after another until one gives a kernel: what that one comes to, or where none gives one the last one.
pub(crate) fn last_tried<'a>(
    alloc: Global,
    prepared: &'a Prepared,
) -> Result<Tried<'a>, OutOfMemory>
    ensures { IfOk result (IsLastTried prepared.now) }
{
    let mut trials = ToldTrials::of(prepared);
    for above in 0..prepared.ceiling() {
        match trials.try_told(alloc, prepared.mii() + above) {
            Err(fault) => return Err(fault),
            Ok(Tried::Met(met)) => return Ok(Tried::Met(met)),
            Ok(Tried::Failed(_)) => {}
        }
    }
    trials.try_told(alloc, prepared.mii() + prepared.ceiling())
}

/// Whether an interval gives a kernel.
pub(crate) fn is_met(tried: &Tried) -> bool
    ensures { result ≡ gives_kernel tried.now }
{
    matches!(tried, Tried::Met(_))
}
