//! A circuit that does not fit an interval.

ghost use Rattle.std.specs.Prelude.{◌≡◌, ◌≢◌, ◌≤◌, ◌==◌, position, IfOk, MatchOption};
ghost use Rattle.std.specs.List.{AllPairs};
ghost use Rattle.edges.specs.declared.edge.Edge.{Edge};
ghost use Rattle.walks.specs.Walks.{FitsCircuits};
ghost use Rattle.circuits.specs.Circuits.{IsCircuitAbove};
ghost use Rattle.circuits.specs.inner.Layers.{IsReturn};
ghost use Rattle.machine_data.specs.declared.limits.TheConstants.{MAX_INTERVAL};

use crate::layer::{longer_walks, without_edges};
use crate::sweeps::{Swept, sweep_all};
use edges::{Edge, Edges};
use machine_data::OutOfMemory;
use std::alloc::Global;

/// Where a walk first goes on from an operation.
fn place_of(walk: &[Edge], operation: u8) -> Option<usize>
    ensures { result ≡ position (λ (e : Edge). e.from == operation) walk.now }
{
    walk.iter().position(|edge| edge.from == operation)
}

/// The part of a walk from the first operation that it goes on from again, up to there.
fn first_return(walk: &[Edge]) -> Option<&[Edge]>
    ensures { MatchOption result (AllPairs (λ (a b : Edge). a.from ≢ b.from) walk.now) (λ part. IsReturn walk.now part.now) }
{
    for (end, edge) in walk.iter().enumerate() {
        if let Some(begin) = place_of(&walk[..end], edge.from) {
            return Some(&walk[begin..end]);
        }
    }
    None
}

/// The circuit of a walk by layers, where one does not fit the interval.
///
/// The longest walks of at most 0, 1, 2 edges and so on are found until no walk gets longer: then every circuit fits. A walk that
/// still gets longer with one edge more than there are operations comes to some operation twice, and what it does in between is such a
/// circuit, since the rest is no longer than the walks before.
fn circuit_by_layers(
    alloc: Global,
    edges: &Edges,
    ii: u64,
) -> Result<Option<Vec<Edge>>, OutOfMemory>
    requires limit { ii ≤ MAX_INTERVAL }
    ensures exact { IfOk result (λ found. MatchOption found (FitsCircuits edges.now.edges ii) (λ walk. IsCircuitAbove edges.now.edges ii walk.items)) }
{
    let most = edges.operations() + 1;
    let mut layers = Vec::with_capacity(alloc, most + 1)?;
    layers.push(without_edges())?;
    let mut at = 0;
    for made in 0..most {
        let longer = longer_walks(edges, ii, &layers[made].lengths);
        let Some(operation) = longer.at else {
            return Ok(None);
        };
        layers.push(longer.layer)?;
        at = operation;
    }
    let mut walk = Vec::with_capacity(alloc, most)?;
    for left in (0..most).rev() {
        if let Some(edge) = layers[left + 1].first[at] {
            walk.push(edge)?;
            at = edge.to as usize;
        }
    }
    // The walk has more edges than there are operations.
    let part = first_return(walk.as_slice()).unwrap();
    let circuit = Vec::from_slice(alloc, part)?;
    Ok(Some(circuit))
}

/// A circuit of the edges that does not fit an interval, in cycles, where there is one: a closed walk that
/// takes more cycles than its distance times the interval, and comes to no operation twice. Its edges are
/// given in its order. At 0 it is a circuit of positive delay.
///
/// Walks are made longer in sweeps over the edges, until the edges that they begin with go round a circuit
/// that does not fit, or no walk gets longer: then every circuit fits. Should the sweeps end without
/// either, walks are made by layers.
///
/// # Errors
/// [`OutOfMemory`] where memory runs out: the circuit is all that sweeps take memory for, and layers take
/// some 2 KiB for each operation.
pub fn circuit_above(
    alloc: Global,
    edges: &Edges,
    ii: u64,
) -> Result<Option<Vec<Edge>>, OutOfMemory>
    requires limit { ii ≤ MAX_INTERVAL }
    ensures exact { IfOk result (λ found. MatchOption found (FitsCircuits edges.now.edges ii) (λ walk. IsCircuitAbove edges.now.edges ii walk.items)) }
{
    match sweep_all(alloc, edges, ii)? {
        Swept::Fits => Ok(None),
        Swept::Circuit(circuit) => Ok(Some(circuit)),
        Swept::Open => circuit_by_layers(alloc, edges, ii),
    }
}
