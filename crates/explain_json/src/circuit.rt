//! A circuit of dependences.

ghost use Rattle.std.specs.Prelude.{◌≡◌, ◌≤◌, length, position, IfOk};
ghost use Rattle.serde_json.specs.View.{view};
ghost use Rattle.explain_json.specs.Edges.{circuit_value, place_of, same_edge};
ghost use Rattle.explain_json.specs.inner.Objects.{circuit_object};
ghost use Rattle.explain_json.specs.Parts.{array_of, count_value};

use circuits::sums_of;
use edges::{Edge, Edges};
use json_objects::{object_of, with, with_value};
use machine_data::OutOfMemory;
use serde_json::{Map, Value};
use std::alloc::Global;

/// Whether two edges are one.
fn same_edge(edge: &Edge, other: &Edge) -> bool
    ensures { result ≡ same_edge edge.now other.now }
{
    other.from == edge.from
        && other.to == edge.to
        && other.distance == edge.distance
        && other.delay <= edge.delay
        && edge.delay <= other.delay
}

/// The place of an edge, where it is among these.
fn found(edges: &[Edge], edge: &Edge) -> Option<usize>
    ensures { result ≡ position (same_edge edge.now) edges.now }
{
    edges.iter().position(|other| same_edge(edge, other))
}

/// The place of an edge among those of the loop.
fn place_of(edges: &[Edge], edge: &Edge) -> usize
    ensures { result ≡ place_of edges.now edge.now }
{
    match found(edges, edge) {
        Some(place) => place,
        None => edges.len(),
    }
}

/// The places of the edges of a circuit, in its order.
fn told_places(alloc: Global, edges: &[Edge], circuit: &[Edge]) -> Result<Value, OutOfMemory>
    ensures { IfOk result (λ v. view v ≡ array_of (λ edge. count_value (place_of edges.now edge)) circuit.now) }
{
    let mut values = Vec::with_capacity(alloc, circuit.len())?;
    for edge in circuit {
        values.push(Value::from(place_of(edges, edge)))?;
    }
    Ok(Value::Array(values))
}

/// A circuit that has edges, and needs this bound.
fn told_sums(
    alloc: Global,
    graph: &Edges,
    bound: u64,
    circuit: &[Edge],
) -> Result<Value, OutOfMemory>
    requires few { length circuit.now ≤ 128 }
    ensures { IfOk result (λ v. view v ≡ circuit_object graph.now.edges bound circuit.now) }
{
    let sums = sums_of(circuit);
    let members = Ok(Map::new(alloc));
    let members = with_value(alloc, members, "delay", Value::from(sums.delay));
    let members = with_value(alloc, members, "distance", Value::from(sums.distance));
    let places = told_places(alloc, graph.all(), circuit);
    let members = with(alloc, members, "edges", places);
    object_of(with_value(alloc, members, "needs", Value::from(bound)))
}

/// A circuit that needs this bound, where it has edges.
pub(crate) fn told_circuit(
    alloc: Global,
    graph: &Edges,
    bound: u64,
    circuit: &[Edge],
) -> Result<Value, OutOfMemory>
    requires few { length circuit.now ≤ 128 }
    ensures { IfOk result (λ v. view v ≡ circuit_value graph.now.edges bound circuit.now) }
{
    if circuit.is_empty() {
        return Ok(Value::Null);
    }
    told_sums(alloc, graph, bound, circuit)
}
