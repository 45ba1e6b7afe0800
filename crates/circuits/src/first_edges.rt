//! Circuits of the edges that walks begin with, of which each operation has one at most.

ghost use Rattle.std.specs.Prelude.{◌<◌, ◌≤◌, length, IfOk, IfSome};
ghost use Rattle.circuits.specs.Circuits.{IsCircuitAbove};
ghost use Rattle.circuits.specs.inner.Sweeps.{AreFirst, GoesRoundOnce};
ghost use Rattle.machine_data.specs.declared.limits.TheConstants.{MAX_INTERVAL};

use crate::sums::exceeds;
use edges::{Edge, Edges};
use machine_data::OutOfMemory;
use machine_data::limits::MAX_STATEMENTS;
use std::alloc::Global;

/// The operation that first edges come to again on the way from `start`, where none on the way is marked yet. All on the way are
/// marked by `start`.
fn come_again(
    edges: &Edges,
    first: &[Option<Edge>; MAX_STATEMENTS],
    start: usize,
    marks: &mut [Option<usize>; MAX_STATEMENTS],
) -> Option<usize>
    requires there { start < length edges.now.latencies }
    requires first { AreFirst edges.now first.now }
    ensures { IfSome result (λ p. p < length edges.now.latencies) }
{
    let mut at = start;
    for _step in 0..=edges.operations() {
        if let Some(mark) = marks[at] {
            return if mark == start { Some(at) } else { None };
        }
        marks[at] = Some(start);
        let Some(edge) = first[at] else {
            return None;
        };
        at = edge.to as usize;
    }
    None
}

/// An operation that first edges lead from to itself, if they do so anywhere: each operation is looked at once.
pub(crate) fn returning(edges: &Edges, first: &[Option<Edge>; MAX_STATEMENTS]) -> Option<usize>
    requires first { AreFirst edges.now first.now }
    ensures { IfSome result (λ p. p < length edges.now.latencies) }
{
    let mut marks = [None; MAX_STATEMENTS];
    for start in (0..edges.operations()).rev() {
        if let Some(operation) = come_again(edges, first, start, &mut marks) {
            return Some(operation);
        }
    }
    None
}

/// The walk along first edges from an operation back to it, where they lead there.
fn around(
    alloc: Global,
    edges: &Edges,
    first: &[Option<Edge>; MAX_STATEMENTS],
    start: usize,
) -> Result<Option<Vec<Edge>>, OutOfMemory>
    requires there { start < length edges.now.latencies }
    requires first { AreFirst edges.now first.now }
    ensures { IfOk result (λ found. IfSome found (λ walk. GoesRoundOnce edges.now.edges walk.items)) }
{
    let mut walk = Vec::new(alloc);
    let mut at = start;
    for _step in 0..edges.operations() {
        let Some(edge) = first[at] else {
            return Ok(None);
        };
        walk.push(edge)?;
        at = edge.to as usize;
        if at == start {
            return Ok(Some(walk));
        }
    }
    Ok(None)
}

/// The circuit of first edges through an operation, where there is one and it does not fit the interval.
///
/// Sweeps leave no other circuit of first edges than one that does not fit; its sums tell so without a word on sweeps.
pub(crate) fn circuit_through(
    alloc: Global,
    edges: &Edges,
    interval: u64,
    first: &[Option<Edge>; MAX_STATEMENTS],
    start: usize,
) -> Result<Option<Vec<Edge>>, OutOfMemory>
    requires short { interval ≤ MAX_INTERVAL }
    requires there { start < length edges.now.latencies }
    requires first { AreFirst edges.now first.now }
    ensures { IfOk result (λ found. IfSome found (λ walk. IsCircuitAbove edges.now.edges interval walk.items)) }
{
    let Some(walk) = around(alloc, edges, first, start)? else {
        return Ok(None);
    };
    if exceeds(walk.as_slice(), interval) {
        Ok(Some(walk))
    } else {
        Ok(None)
    }
}
