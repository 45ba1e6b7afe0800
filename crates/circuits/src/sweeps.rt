//! The longest walks from each operation at an interval, made longer in place until they stay or go round.

ghost use Rattle.std.specs.Prelude.{◌≡◌, ◌+◌, ◌*◌, ◌<◌, ◌≤◌, length, false, IfOk};
ghost use Rattle.edges.specs.Graphs.{IsGraph};
ghost use Rattle.walks.specs.Walks.{FitsCircuits};
ghost use Rattle.circuits.specs.inner.Sweeps.{AreFirst, AreShort, IsSwept};
ghost use Rattle.machine_data.specs.declared.limits.TheConstants.{MAX_INTERVAL};

use crate::first_edges::{circuit_through, returning};
use crate::layer::farthest;
use edges::{Edge, Edges};
use machine_data::OutOfMemory;
use machine_data::limits::MAX_STATEMENTS;
use std::alloc::Global;

/// What sweeps over the edges come to at an interval.
#[derive(Drop)]
pub(crate) enum Swept {
    /// Every circuit fits.
    Fits,
    /// A circuit that does not fit.
    Circuit(Vec<Edge>),
    /// Neither was seen.
    Open,
}

/// Makes one more sweep: lengthens the walk of each operation, from the last one to the first, along the edges from it, and keeps
/// the edge that it then begins with. Whether any walk got longer.
///
/// `made` sweeps were made before it. A sweep adds at most 64 cycles for each operation.
fn sweep(
    edges: &Edges,
    interval: u64,
    made: usize,
    lengths: &mut [u64; MAX_STATEMENTS],
    first: &mut [Option<Edge>; MAX_STATEMENTS],
) -> bool
    requires short { interval ≤ MAX_INTERVAL }
    requires few { made < 128 }
    requires lengths { AreShort edges.now (8192 * made) lengths.old }
    requires first { AreFirst edges.now first.old }
    ensures lengths { AreShort edges.now (8192 * (made + 1)) lengths.new }
    ensures first { AreFirst edges.now first.new }
    ensures stays { result ≡ false → FitsCircuits edges.now.edges interval }
{
    let mut longer = false;
    for operation in (0..edges.operations()).rev() {
        let own = lengths[operation];
        let walk = farthest(own, edges.out_of(operation), lengths, interval);
        if own < walk.reach {
            lengths[operation] = walk.reach;
            first[operation] = walk.first;
            longer = true;
        }
    }
    longer
}

/// What the circuit of first edges through an operation tells.
fn circuit_from(
    alloc: Global,
    edges: &Edges,
    interval: u64,
    first: &[Option<Edge>; MAX_STATEMENTS],
    start: usize,
) -> Result<Swept, OutOfMemory>
    requires short { interval ≤ MAX_INTERVAL }
    requires there { start < length edges.now.latencies }
    requires first { AreFirst edges.now first.now }
    ensures { IfOk result (IsSwept edges.now.edges interval) }
{
    match circuit_through(alloc, edges, interval, first, start)? {
        Some(circuit) => Ok(Swept::Circuit(circuit)),
        None => Ok(Swept::Open),
    }
}

/// Makes sweeps until no walk gets longer, and then every circuit fits, or until the edges that walks begin with go round.
///
/// There are no more sweeps than operations. They come to one or the other, mostly after two or three.
pub(crate) fn sweep_all(alloc: Global, edges: &Edges, interval: u64) -> Result<Swept, OutOfMemory>
    requires short { interval ≤ MAX_INTERVAL }
    ensures { IfOk result (IsSwept edges.now.edges interval) }
{
    let mut lengths = [0; MAX_STATEMENTS];
    let mut first = [None; MAX_STATEMENTS];
    for made in 0..edges.operations() {
        if !sweep(edges, interval, made, &mut lengths, &mut first) {
            return Ok(Swept::Fits);
        }
        if let Some(start) = returning(edges, &first) {
            return circuit_from(alloc, edges, interval, &first, start);
        }
    }
    Ok(Swept::Open)
}
