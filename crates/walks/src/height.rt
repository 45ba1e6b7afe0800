//! Heights, by which a scheduler takes operations.

ghost use Rattle.std.specs.Prelude.{◌≡◌, ℕ, ◌*◌, ◌<◌, ◌≤◌, length, slice_index, IfOk};
ghost use Rattle.std.specs.List.{All};
ghost use Rattle.walks.specs.Walks.{FitsCircuits, IsHeight};
ghost use Rattle.machine_data.specs.declared.limits.TheConstants.{MAX_INTERVAL};

use crate::relaxation::{Relaxed, relax};
use edges::Edges;
use machine_data::OutOfMemory;
use machine_data::limits::MAX_STATEMENTS;
use std::alloc::Global;

/// The height of each operation at an interval, in cycles, 1 to 64 for each operation: HeightR of
/// B. R. Rau, "Iterative Modulo Scheduling", HPL-94-115.
///
/// It is the length of the longest walk along edges from the operation. A walk's length is the sum of
/// the edges' delays, less the interval for each iteration of their distances, and the latency of the
/// operation that the walk ends at. The interval has to be at or above the recurrence-constrained lower
/// bound: [`feasible`](crate::feasible) tells so, and [`longer_intervals_fit`](crate::longer_intervals_fit) of
/// a bound that is known.
///
/// # Errors
/// [`OutOfMemory`] where memory ran out.
pub fn heights(alloc: Global, edges: &Edges, ii: u64) -> Result<Vec<u64>, OutOfMemory>
    requires fits { FitsCircuits edges.now.edges ii }
    requires limit { ii ≤ MAX_INTERVAL }
    ensures each { IfOk result (λ v. length v.items ≡ length edges.now.latencies) }
    ensures exact { IfOk result (λ v. (p : ℕ) → p < length edges.now.latencies → IsHeight edges.now.edges edges.now.latencies ii p (slice_index v.items p)) }
    ensures range { IfOk result (λ v. All (λ h. (1 ≤ h) × (h ≤ 64 * length edges.now.latencies)) v.items) }
{
    let mut numbers = [0; MAX_STATEMENTS];
    match relax(edges, ii, &mut numbers) {
        Relaxed::Heights => Vec::from_slice(alloc, &numbers[..edges.operations()]),
        Relaxed::Above(_) => unreachable!(),
    }
}
