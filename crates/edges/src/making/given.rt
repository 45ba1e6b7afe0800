//! Graphs of edges that are given.

ghost use Rattle.std.specs.Prelude.{◌≡◌, ◌<◌, ◌≤◌, ◌↔◌, ◌≤ℤ◌, pos, length, IfOk, IsTrue, MatchOption};
ghost use Rattle.std.specs.List.{All};
ghost use Rattle.edges.specs.Edges.{EdgeData};
ghost use Rattle.edges.specs.Graphs.{AreEdges, IsGraphWith};
ghost use Rattle.machine_data.specs.declared.limits.TheConstants.{MAX_LATENCY};

use crate::edge::Edge;
use crate::layout::graph::Edges;
use crate::making::order::in_order;
use machine_data::OutOfMemory;
use std::alloc::Global;

/// Whether each latency is 1 to 64.
fn are_latencies(cycles: &[u8]) -> bool
    ensures { IsTrue result ↔ All (λ l. (0 < l) × (l ≤ MAX_LATENCY)) cycles.now }
{
    cycles.iter().all(|cycle| 0 < *cycle && *cycle <= 64)
}

/// Whether each edge goes from an operation to one.
fn are_between(list: &[Edge], operations: usize) -> bool
    ensures { IsTrue result ↔ All (λ (e : EdgeData). (e.from < operations) × (e.to < operations)) list.now }
{
    list.iter().all(|e| (e.from as usize) < operations && (e.to as usize) < operations)
}

/// Whether each edge within an iteration goes forward.
fn are_forward(list: &[Edge]) -> bool
    ensures { IsTrue result ↔ All (λ (e : EdgeData). e.distance ≡ 0 → e.from < e.to) list.now }
{
    list.iter().all(|e| e.distance != 0 || e.from < e.to)
}

/// Whether each delay is at most 64.
fn are_short(list: &[Edge]) -> bool
    ensures { IsTrue result ↔ All (λ (e : EdgeData). e.delay ≤ℤ pos 64) list.now }
{
    list.iter().all(|e| e.delay <= 64)
}

/// Whether these are edges between operations with these latencies.
fn are_edges(list: &[Edge], cycles: &[u8]) -> bool
    ensures { IsTrue result ↔ AreEdges list.now cycles.now }
{
    (0 < cycles.len() && cycles.len() <= 128)
        && are_latencies(cycles)
        && are_between(list, cycles.len())
        && are_forward(list)
        && are_short(list)
}

/// The graph of these edges, in any order, between operations with these latencies: each edge once. `None` exactly where
/// they are no graph: where there is no operation or more than 128, a latency is not 1 to 64 cycles, an end of an edge is no
/// operation, an edge of distance 0 does not go to a later operation, or a delay is above 64 cycles.
///
/// # Errors
/// [`OutOfMemory`] where memory ran out.
pub fn given(alloc: Global, list: &[Edge], cycles: Vec<u8>) -> Result<Option<Edges>, OutOfMemory>
    ensures exact { IfOk result (λ found. MatchOption found (¬ AreEdges list.now cycles.items) (IsGraphWith list.now cycles.items)) }
{
    if !are_edges(list, cycles.as_slice()) {
        return Ok(None);
    }
    let ordered = in_order(alloc, list, cycles.len())?;
    Ok(Some(Edges::new(alloc, ordered, cycles)?))
}
