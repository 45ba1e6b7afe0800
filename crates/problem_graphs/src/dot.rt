//! The operations of a problem and what they wait for, as a graph in the language of Graphviz.

ghost use Rattle.std.specs.Prelude.{◌≡◌, ◌++◌, ℕ, List, length, OnOk};
ghost use Rattle.problem_graphs.specs.declared.arrows.Look.TheVariants.{Plain};
ghost use Rattle.problem_graphs.specs.Dot.{IsDotText, graph_head};

use crate::arrows::{Look, push_orders, push_reads};
use crate::nodes::{push_nodes, push_title};
use graph_marks::push_nodes_plain;
use graph_text::critical_circuit;
use machine_data::OutOfMemory;
use problems::Problem;
use std::alloc::Global;
use writing::Text;

/// Appends what stands before the operations.
fn push_head(
    text: &mut Vec<u8>,
    name: &str,
    scheduling: &schedules::Problem,
) -> Result<(), OutOfMemory>
    ensures ok { OnOk result (text.new.items ≡ text.old.items ++ graph_head name.now scheduling.now) }
{
    push_title(text, name, scheduling)?;
    push_nodes_plain(text)
}

/// Appends the graph of a problem in the language of Graphviz. Its label is the problem's name with the lower bounds of the interval,
/// in cycles. Each operation is a node with its number, labelled with what it and its kind are called. Each read and, after these, each
/// order is an arrow from the operation that comes first, labelled with why the other one waits (`value V` of a read of the value `V`,
/// and `order`), its delay in cycles and, unless that is 0, after an `@` its distance in iterations. Where a circuit needs the
/// recurrence-constrained lower bound, the arrows of one such circuit are bold. Of names, a quote and a backslash stand after a
/// backslash. A part that has no name is told by its number.
///
/// # Errors
/// [`OutOfMemory`] where memory ran out. The text is left with a part of the graph.
pub fn push_dot(
    alloc: Global,
    text: &mut Vec<u8>,
    name: &str,
    problem: &Problem,
) -> Result<(), OutOfMemory>
    ensures ok { OnOk result ((part : List ℕ) × IsDotText name.now problem.now part × (text.new.items ≡ text.old.items ++ part)) }
{
    let scheduling = problem.scheduling();
    let circuit = critical_circuit(alloc, scheduling.edges(), scheduling.recurrences())?;
    push_head(text, name, scheduling)?;
    push_nodes(text, problem.draft())?;
    push_reads(text, problem.draft(), circuit.as_slice(), Look::Plain)?;
    push_orders(text, problem.draft(), circuit.as_slice(), Look::Plain)?;
    text.push_piece("}\n")
}
