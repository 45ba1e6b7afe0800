//! The graphs of loops, each with a circuit that needs the lower bound of its interval.

ghost use Rattle.std.specs.Prelude.{◌≡◌, ◌≤◌, ◌++◌, ℕ, List, Vec, IfOk};
ghost use Rattle.std.specs.Global.{Global};
ghost use Rattle.graph.specs.Units.{first_lacking};
ghost use Rattle.walks.specs.Walks.{IsRecurrenceBound};
ghost use Rattle.graph_text.specs.Drawings.{AreDotParts, IsCritical, IsDotPart};
ghost use Rattle.lower_bounds.specs.Faults.{TextAnswers, lacking_in};

use crate::drawing::dot::push_dot;
use circuits::circuit_above;
use edges::{Edge, Edges};
use loop_data::Loop;
use lower_bounds::{TextFault, measure};
use machine_data::{Machine, OutOfMemory};
use std::alloc::Global;

/// A guess of how many bytes the graph of a loop takes, for the first reservation.
const PART: usize = 1024;

/// A circuit of dependences that needs their recurrence-constrained lower bound, in cycles: it does not
/// fit an interval that is one cycle shorter. It has no edges where no circuit needs the bound, which is
/// then 1.
///
/// # Errors
/// [`OutOfMemory`] where memory ran out.
pub fn critical_circuit(alloc: Global, edges: &Edges, bound: u64) -> Result<Vec<Edge>, OutOfMemory>
    requires bound { IsRecurrenceBound edges.now.edges bound }
    requires limit { bound ≤ 8192 }
    ensures exact { IfOk result (λ circuit. IsCritical edges.now.edges bound circuit.items) }
{
    match circuit_above(alloc, edges, bound - 1)? {
        Some(circuit) => Ok(circuit),
        None => Ok(Vec::new(alloc)),
    }
}

/// Appends the graph of a loop.
fn push_drawing(
    alloc: Global,
    text: &mut Vec<u8>,
    machine: &Machine,
    innermost: &Loop,
) -> Result<(), TextFault>
    ensures exact { TextAnswers (lacking_in machine.now innermost.now) (λ _. (part : List ℕ) × IsDotPart machine.now innermost.now part × (text.new.items ≡ text.old.items ++ part)) result }
{
    let measured = measure(alloc, machine, innermost)?;
    let circuit = critical_circuit(alloc, &measured.graph, measured.bounds.recurrences)?;
    push_dot(text, innermost, &measured, circuit.as_slice())?;
    Ok(())
}

/// The dependences of loops as graphs in the language of Graphviz, one for each loop, in order. Where a
/// circuit of dependences needs a loop's recurrence-constrained lower bound, one such circuit is bold.
///
/// # Errors
/// [`TextFault::NoTable`] for the first statement whose opcode the machine has no table for, and
/// [`TextFault::Memory`] where memory ran out.
pub fn dot_graphs(alloc: Global, machine: &Machine, loops: &[Loop]) -> Result<Vec<u8>, TextFault>
    ensures exact { TextAnswers (first_lacking machine.now loops.now) (λ (text : Vec ℕ Global). AreDotParts machine.now loops.now text.items) result }
{
    let mut text = Vec::with_capacity(alloc, PART.saturating_mul(loops.len()))?;
    for innermost in loops {
        push_drawing(alloc, &mut text, machine, innermost)?;
    }
    Ok(text)
}
