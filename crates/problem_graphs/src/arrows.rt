//! The arrows of a problem.

ghost use Rattle.std.specs.Prelude.{◌≡◌, ◌++◌, ℕ, List, OnOk};
ghost use Rattle.problems.specs.Drafts.{IsWellFormed};
ghost use Rattle.problem_graphs.specs.Arrows.{AreOrders, AreReads, IsOfCircuit, arrow_line, end_of};

use crate::demands::{order_edge, read_edge};
use crate::whys::{Why, push_why_label};
use edges::Edge;
use graph_text::push_arrow_start;
use machine_data::OutOfMemory;
use problems::Draft;
use writing::Text;

/// How arrows look.
#[derive(Clone, Copy)]
pub(crate) enum Look {
    /// Those of the circuit are bold.
    Plain,
    /// Those of the circuit are red, and those to a later iteration are dashed.
    Scheduled,
}

/// Appends what the line of an arrow has after its label's word.
fn push_end(text: &mut Vec<u8>, look: Look, edge: &Edge, drawn: bool) -> Result<(), OutOfMemory>
    ensures ok { OnOk result (text.new.items ≡ text.old.items ++ end_of look edge.now drawn) }
{
    match look {
        Look::Plain => graph_text::push_arrow_end(text, edge, drawn),
        Look::Scheduled => graph_marks::push_arrow_end(text, edge, drawn),
    }
}

/// Appends the line of an arrow.
fn push_arrow(
    text: &mut Vec<u8>,
    draft: &Draft,
    look: Look,
    edge: Edge,
    why: Why,
    drawn: bool,
) -> Result<(), OutOfMemory>
    ensures ok { OnOk result (text.new.items ≡ text.old.items ++ arrow_line look draft.now edge why drawn) }
{
    push_arrow_start(text, &edge)?;
    push_why_label(text, draft, why)?;
    push_end(text, look, &edge, drawn)
}

/// Whether an edge is one of a circuit.
fn is_of(circuit: &[Edge], edge: Edge) -> bool
    ensures { IsOfCircuit circuit.now edge result }
{
    circuit.contains(&edge)
}

/// Appends the arrows of the reads.
pub(crate) fn push_reads(
    text: &mut Vec<u8>,
    draft: &Draft,
    circuit: &[Edge],
    look: Look,
) -> Result<(), OutOfMemory>
    requires { IsWellFormed draft.now }
    ensures ok { OnOk result ((arrows : List ℕ) × AreReads look draft.now circuit.now draft.now.reads.items arrows × (text.new.items ≡ text.old.items ++ arrows)) }
{
    for read in draft.reads.as_slice() {
        let edge = read_edge(draft, *read);
        let drawn = is_of(circuit, edge);
        push_arrow(text, draft, look, edge, Why::Value(read.value), drawn)?;
    }
    Ok(())
}

/// Appends the arrows of the orders.
pub(crate) fn push_orders(
    text: &mut Vec<u8>,
    draft: &Draft,
    circuit: &[Edge],
    look: Look,
) -> Result<(), OutOfMemory>
    requires { IsWellFormed draft.now }
    ensures ok { OnOk result ((arrows : List ℕ) × AreOrders look draft.now circuit.now draft.now.orders.items arrows × (text.new.items ≡ text.old.items ++ arrows)) }
{
    for order in draft.orders.as_slice() {
        let edge = order_edge(draft.operations.len(), *order);
        let drawn = is_of(circuit, edge);
        push_arrow(text, draft, look, edge, Why::Order, drawn)?;
    }
    Ok(())
}
