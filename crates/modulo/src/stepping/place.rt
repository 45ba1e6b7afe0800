//! Where an operation is placed.

ghost use Rattle.std.specs.Prelude.{◌≡◌, ℕ, ◌+◌, ◌<◌, ◌≤◌, ◌^◌, length, IfSome};
ghost use Rattle.std.specs.List.{All};
ghost use Rattle.edges.specs.declared.edge.Edge.{Edge};
ghost use Rattle.schedules.specs.Problems.{IsProblem};
ghost use Rattle.modulo.specs.inner.Progress.{IsEarliestBy, AreBelow};
ghost use Rattle.modulo.specs.Scheduling.{IsEarliest, forced_time};
ghost use Rattle.machine_data.specs.declared.limits.TheConstants.{MAX_INTERVAL};

use crate::stepping::progress::Progress;
use edges::Edge;
use schedules::{Problem, demand};

/// The earliest time at which the edges from placed operations allow an operation.
pub(crate) fn earliest(problem: &Problem, progress: &Progress, op: usize, ii: u64) -> u64
    requires there { op < length problem.now.operations }
    requires whole { length progress.now.state.placed ≡ length problem.now.operations }
    requires ii { ii ≤ MAX_INTERVAL }
    requires times { AreBelow (2 ^ 31) progress.now.state }
    ensures exact { IsEarliest problem.now ii progress.now.state op result }
    ensures below { (limit : ℕ) → AreBelow limit progress.now.state → result < limit + 64 + 1 }
    ensures well_formed { IsProblem problem.now }
{
    earliest_by(problem.edges().into(op), progress, op, ii)
}

/// The earliest time that these edges allow an operation.
fn earliest_by(edges: &[Edge], progress: &Progress, op: usize, ii: u64) -> u64
    requires ends { All (λ (e : Edge). e.from < length progress.now.state.placed) edges.now }
    requires ii { ii ≤ MAX_INTERVAL }
    requires times { AreBelow (2 ^ 31) progress.now.state }
    ensures exact { IsEarliestBy edges.now ii progress.now.state.placed op result }
{
    let mut least = 0;
    for edge in edges {
        let from = edge.from as usize;
        if from != op {
            if let Some(time) = progress.time(from) {
                least = least.max(demand(time, *edge, ii));
            }
        }
    }
    least
}

/// The time of a forced placement, from the time of the last one.
pub(crate) fn forced(last: Option<u64>, earliest: u64) -> u64
    requires { IfSome last (λ time. time < 2 ^ 32) }
    ensures { result ≡ forced_time last earliest }
{
    match last {
        Some(time) if time >= earliest => time + 1,
        _ => earliest,
    }
}
