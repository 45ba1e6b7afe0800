//! The lines of a circuit that needs the recurrence-constrained lower bound.

ghost use Rattle.std.specs.Prelude.{◌≡◌, ◌==◌, ◌++◌, ℕ, List, length, IfOk, OnOk};
ghost use Rattle.std.specs.List.{All};
ghost use Rattle.loop_data.specs.Loops.{IsLoop};
ghost use Rattle.graph_text.specs.Edges.{edge_line};
ghost use Rattle.graph_text.specs.Kinds.{IsOfKind, IsTimed};
ghost use Rattle.lower_bounds.specs.Texts.{AreTexts};
ghost use Rattle.explain.specs.CircuitTexts.{IsCircuitText};

use edges::{Edge, Edges};
use graph_text::{critical_circuit, kind_of, push_circuit_line, push_edge};
use loop_data::Loop;
use loop_schedules::Prepared;
use machine_data::OutOfMemory;
use std::alloc::Global;

/// Appends the lines of the edges of a circuit, in its order.
fn push_circuit_edges(
    text: &mut Vec<u8>,
    innermost: &Loop,
    _graph: &Edges,
    circuit: &[Edge],
) -> Result<(), OutOfMemory>
    requires whole { IsLoop innermost.now }
    requires timed { All (IsTimed innermost.now _graph.now.latencies) circuit.now }
    ensures ok { OnOk result ((lines : List ℕ) × AreTexts (IsOfKind innermost.now _graph.now.latencies) (edge_line innermost.now) circuit.now lines × (text.new.items ≡ text.old.items ++ lines)) }
{
    for edge in circuit {
        push_edge(text, innermost, edge, kind_of(innermost, edge))?;
    }
    Ok(())
}

/// Appends the lines of a circuit that needs the recurrence-constrained lower bound, and tells whether there is none.
pub(crate) fn push_circuit(
    alloc: Global,
    text: &mut Vec<u8>,
    prepared: &Prepared,
) -> Result<bool, OutOfMemory>
    ensures ok { IfOk result (λ free. (part : List ℕ) × (circuit : IsCircuitText prepared.now part) × (free ≡ (length circuit.circuit == 0)) × (text.new.items ≡ text.old.items ++ part)) }
{
    let graph = prepared.edges();
    let bound = prepared.recurrences();
    let circuit = critical_circuit(alloc, graph, bound)?;
    push_circuit_line(text, circuit.as_slice(), bound)?;
    push_circuit_edges(text, prepared.innermost(), graph, circuit.as_slice())?;
    Ok(circuit.is_empty())
}
