//! Rounds of relaxation, and how many of them settle.

ghost use Rattle.std.specs.Prelude.{◌≡◌, ℕ, true, ◌<◌, ◌≤◌, ◌==◌, length, filter, slice_index, IfOk, IsOk, Some, None};
ghost use Rattle.edges.specs.declared.edge.Edge.{Edge};
ghost use Rattle.walks.specs.Walks.{FitsCircuits};
ghost use Rattle.walks.specs.Rounds.{IsRounds, TellsFeasible};
ghost use Rattle.walks.specs.inner.Reaches.{IsRaised};
ghost use Rattle.machine_data.specs.declared.limits.TheConstants.{MAX_INTERVAL};

use crate::relaxation::{Relaxed, raised, relax, set_first};
use edges::Edges;
use machine_data::OutOfMemory;
use machine_data::limits::MAX_STATEMENTS;
use std::alloc::Global;

/// Raises the number of each operation into the next row. The last operation whose number rises, if any.
fn round(
    edges: &Edges,
    interval: u64,
    numbers: &[u64; MAX_STATEMENTS],
    next: &mut [u64; MAX_STATEMENTS],
) -> Option<usize>
    requires short { interval ≤ MAX_INTERVAL }
    requires small { (p : ℕ) → p < length edges.now.latencies → slice_index numbers.now p ≤ 2097152 }
    ensures raised { (p : ℕ) → p < length edges.now.latencies → IsRaised (filter (λ (e : Edge). e.from == p) edges.now.edges) interval numbers.now (slice_index numbers.now p) (slice_index next.new p) }
    ensures rises { (p : ℕ) → result ≡ Some p → (p < length edges.now.latencies) × (slice_index numbers.now p < slice_index next.new p) }
    ensures stays { result ≡ None → (p : ℕ) → p < length edges.now.latencies → slice_index next.new p ≡ slice_index numbers.now p }
{
    let mut rising = None;
    for operation in 0..edges.operations() {
        let own = numbers[operation];
        let best = raised(own, edges.out_of(operation), numbers, interval).number;
        next[operation] = best;
        if own < best {
            rising = Some(operation);
        }
    }
    rising
}

/// How many rounds are made at an interval that every circuit fits.
fn rounds_to_settle(edges: &Edges, interval: u64) -> usize
    requires short { interval ≤ MAX_INTERVAL }
    requires fits { FitsCircuits edges.now.edges interval }
    ensures exact { IsRounds edges.now interval true result }
{
    let mut numbers = [0; MAX_STATEMENTS];
    set_first(edges, interval, &mut numbers);
    let mut next = [0; MAX_STATEMENTS];
    for made in 0..edges.operations() {
        if round(edges, interval, &numbers, &mut next).is_none() {
            return made + 1;
        }
        numbers = next;
    }
    unreachable!()
}

/// Rounds of relaxation at an interval, in cycles: whether they settle, and how many are made, from 1 to
/// the number of operations. They settle where the interval is at or above the recurrence-constrained
/// lower bound.
///
/// Each operation has a number, at first its latency. A round raises it to the greatest, over the edges
/// from the operation, of the target's number in the round before with the edge's delay, less the
/// interval for each iteration of the edge's distance. Rounds are made until one changes nothing, which
/// is counted too, and at most one for each operation. Where they do not settle, the number of
/// operations is told, and no round is made, since a circuit that does not fit is seen first.
///
/// # Errors
/// None: no memory is taken.
pub fn rounds(_alloc: Global, edges: &Edges, ii: u64) -> Result<(bool, u64), OutOfMemory>
    requires from_one { 1 ≤ ii }
    requires limit { ii ≤ MAX_INTERVAL }
    ensures exact { IfOk result (λ r. IsRounds edges.now ii r.0 r.1) }
    ensures feasible { IfOk result (λ r. TellsFeasible edges.now.edges ii r.0) }
    ensures fits { IfOk result (λ r. r.0 ≡ true → FitsCircuits edges.now.edges ii) }
    ensures no_memory { IsOk result }
{
    let mut numbers = [0; MAX_STATEMENTS];
    match relax(edges, ii, &mut numbers) {
        Relaxed::Heights => Ok((true, rounds_to_settle(edges, ii) as u64)),
        Relaxed::Above(_) => Ok((false, edges.operations() as u64)),
    }
}
