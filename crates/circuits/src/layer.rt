//! The longest walks from each operation at an interval, by how many edges they may have.

ghost use Rattle.std.specs.Prelude.{◌≡◌, ℕ, pos, ◌*◌, ◌+◌, ◌+ℤ◌, ◌-ℤ◌, ◌≤ℤ◌, ◌<◌, ◌≤◌, length, slice_index, MatchOption};
ghost use Rattle.std.specs.List.{All};
ghost use Rattle.edges.specs.declared.edge.Edge.{Edge};
ghost use Rattle.edges.specs.Graphs.{IsGraph};
ghost use Rattle.circuits.specs.inner.Layers.{IsFarthest, IsLayer};
ghost use Rattle.machine_data.specs.declared.limits.TheConstants.{MAX_INTERVAL};

use edges::{Edge, Edges};
use machine_data::limits::MAX_STATEMENTS;

/// The longest walk from an operation.
#[derive(Clone, Copy)]
pub(crate) struct Walk {
    /// In cycles.
    pub(crate) reach: u64,
    /// The edge that the walk begins with, where it is longer than the operation's walk was.
    pub(crate) first: Option<Edge>,
}

/// The longest walk from each operation, of those with at most a certain number of edges.
#[derive(Clone, Copy)]
pub(crate) struct Layer {
    /// In cycles; 0 to 64 for each edge.
    pub(crate) lengths: [u64; MAX_STATEMENTS],
    /// The edges that the walks begin with, where they are longer than those of one edge less.
    pub(crate) first: [Option<Edge>; MAX_STATEMENTS],
}

/// A layer, and an operation whose walk is longer than in the one before it, if there is any.
#[derive(Drop)]
pub(crate) struct Longer {
    pub(crate) layer: Layer,
    pub(crate) at: Option<usize>,
}

/// How long a walk is that begins with `edge` and goes on for `rest` cycles.
///
/// Walks stay below 2^20 cycles: they have some hundred edges of at most 64.
fn through(edge: Edge, rest: u64, interval: u64) -> i64
    requires short { interval ≤ MAX_INTERVAL }
    requires small { rest ≤ 1048576 }
    ensures exact { result ≡ ((pos rest +ℤ edge.delay) -ℤ pos (interval * edge.distance)) }
    ensures near { result ≤ℤ pos (rest + 127) }
{
    rest as i64 + i64::from(edge.delay) - (interval * u64::from(edge.distance)) as i64
}

/// The longest of an operation's walk and of those that begin with an edge from it.
pub(crate) fn farthest(
    own: u64,
    outgoing: &[Edge],
    lengths: &[u64; MAX_STATEMENTS],
    interval: u64,
) -> Walk
    requires short { interval ≤ MAX_INTERVAL }
    requires own_small { own ≤ 1048576 }
    requires small { All (λ (e : Edge). (e.to < 128) × (slice_index lengths.now e.to ≤ 1048576)) outgoing.now }
    ensures { IsFarthest outgoing.now interval lengths.now own result.reach result.first }
{
    let mut reach = own;
    let mut first = None;
    for edge in outgoing {
        let reached = through(*edge, lengths[edge.to as usize], interval);
        if reached > reach as i64 {
            reach = reached as u64;
            first = Some(*edge);
        }
    }
    Walk { reach, first }
}

/// The walks without edges.
pub(crate) fn without_edges() -> Layer
    ensures { (p : ℕ) → slice_index result.lengths p ≡ 0 }
{
    Layer {
        lengths: [0; MAX_STATEMENTS],
        first: [None; MAX_STATEMENTS],
    }
}

/// The walks that may have one edge more than those of these lengths.
pub(crate) fn longer_walks(edges: &Edges, interval: u64, before: &[u64; MAX_STATEMENTS]) -> Longer
    requires short { interval ≤ MAX_INTERVAL }
    requires small { (p : ℕ) → p < length edges.now.latencies → slice_index before.now p ≤ 1048576 }
    ensures layer { IsLayer edges.now interval before.now result.layer.lengths result.layer.first }
    ensures at { MatchOption result.at ((p : ℕ) → p < length edges.now.latencies → slice_index result.layer.lengths p ≡ slice_index before.now p) (λ p. (p < length edges.now.latencies) × (slice_index before.now p < slice_index result.layer.lengths p)) }
    ensures well_formed { IsGraph edges.now }
{
    let mut lengths = [0; MAX_STATEMENTS];
    let mut first = [None; MAX_STATEMENTS];
    let mut at = None;
    for operation in 0..edges.operations() {
        let own = before[operation];
        let walk = farthest(own, edges.out_of(operation), before, interval);
        lengths[operation] = walk.reach;
        first[operation] = walk.first;
        if own < walk.reach {
            at = Some(operation);
        }
    }
    Longer {
        layer: Layer { lengths, first },
        at,
    }
}
