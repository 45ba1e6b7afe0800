//! What edges demand of issue times.

ghost use Rattle.std.specs.Prelude.{◌+◌, ◌<◌, ◌≤◌, ◌^◌};
ghost use Rattle.machine_data.specs.declared.limits.TheConstants.{MAX_INTERVAL};
ghost use Rattle.schedules.specs.Demands.{IsDemand};

use edges::Edge;

/// The earliest cycle, from 0 on, at which an edge allows its target to be issued, where the operation that it comes from is issued
/// in cycle `time`, below 2^32, and each iteration begins `ii` cycles, at most 16,384, after the one before it. That is less than 128
/// cycles after `time`.
pub fn demand(time: u64, edge: Edge, ii: u64) -> u64
    requires time { time < 2 ^ 32 }
    requires ii { ii ≤ MAX_INTERVAL }
    ensures exact { IsDemand ii time edge result }
    ensures below { result < time + 128 }
{
    let after = (ii * u64::from(edge.distance)) as i64;
    let least = time as i64 + i64::from(edge.delay) - after;
    if least < 0 { 0 } else { least as u64 }
}
