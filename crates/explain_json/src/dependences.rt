//! The dependences of a loop.

ghost use Rattle.std.specs.Prelude.{◌≡◌, List, IfOk};
ghost use Rattle.std.specs.List.{All, AllZip};
ghost use Rattle.serde_json.specs.Data.{Data, array};
ghost use Rattle.serde_json.specs.View.{items_of, view};
ghost use Rattle.loop_data.specs.Loops.{IsLoop};
ghost use Rattle.graph_text.specs.Kinds.{IsTimed};
ghost use Rattle.explain_json.specs.Edges.{IsEdgeObject, edge_object};

use edges::{Edge, Edges};
use graph_text::{Kind, kind_of};
use json_objects::{object_of, with, with_value};
use loop_data::Loop;
use machine_data::OutOfMemory;
use serde_json::{Map, ToValue, Value};
use std::alloc::Global;

/// A dependence of this kind.
fn told_edge(alloc: Global, edge: &Edge, kind: Kind) -> Result<Value, OutOfMemory>
    ensures { IfOk result (λ v. view v ≡ edge_object edge.now kind) }
{
    let members = Ok(Map::new(alloc));
    let members = with_value(alloc, members, "delay", Value::from(edge.delay));
    let members = with_value(alloc, members, "distance", Value::from(edge.distance));
    let members = with_value(alloc, members, "from", Value::from(edge.from));
    let members = with(alloc, members, "kind", kind.word().to_value(alloc));
    object_of(with_value(alloc, members, "to", Value::from(edge.to)))
}

/// All dependences, in order.
pub(crate) fn told_edges(
    alloc: Global,
    innermost: &Loop,
    graph: &Edges,
) -> Result<Value, OutOfMemory>
    requires whole { IsLoop innermost.now }
    requires timed { All (IsTimed innermost.now graph.now.latencies) graph.now.edges }
    ensures { IfOk result (λ v. (objects : List Data) × AllZip (IsEdgeObject innermost.now graph.now.latencies) graph.now.edges objects × (view v ≡ array (items_of objects))) }
{
    let mut values = Vec::with_capacity(alloc, graph.all().len())?;
    for edge in graph.all() {
        values.push(told_edge(alloc, edge, kind_of(innermost, edge))?)?;
    }
    Ok(Value::Array(values))
}
