//! The lines of a circuit that the recurrence-constrained bound is due to.

ghost use Rattle.std.specs.Prelude.{◌≡◌, ◌↔◌, ◌++◌, ℕ, IsTrue, List, OnOk};
ghost use Rattle.lower_bounds.specs.Texts.{AreTexts};
ghost use Rattle.problems.specs.Drafts.{IsRead, IsWellFormed, read_edge};
ghost use Rattle.problem_graphs.specs.Edges.{edge_line};
ghost use Rattle.problem_reasons.specs.CircuitTexts.{IsCircuitText, IsWhy};

use edges::Edge;
use graph_text::push_circuit_line;
use machine_data::OutOfMemory;
use outcome_text::circuit_of;
use problem_graphs::{Why, push_edge, read_edge};
use problems::{Draft, Problem};
use registers::Read;
use std::alloc::Global;

/// Whether a read demands an edge.
fn demands(draft: &Draft, read: Read, edge: Edge) -> bool
    requires well_formed { IsWellFormed draft.now }
    requires read { IsRead draft.now read }
    ensures { IsTrue result ↔ (read_edge draft.now read ≡ edge) }
{
    read_edge(draft, read) == edge
}

/// Why an edge is demanded.
fn why_of(draft: &Draft, edge: Edge) -> Why
    requires { IsWellFormed draft.now }
    ensures { IsWhy draft.now edge result }
{
    for read in draft.reads.as_slice() {
        if demands(draft, *read, edge) {
            return Why::Value(read.value);
        }
    }
    Why::Order
}

/// Appends the lines of the edges of a circuit.
fn push_edges(text: &mut Vec<u8>, draft: &Draft, circuit: &[Edge]) -> Result<(), OutOfMemory>
    requires { IsWellFormed draft.now }
    ensures ok { OnOk result ((lines : List ℕ) × AreTexts (IsWhy draft.now) (edge_line draft.now) circuit.now lines × (text.new.items ≡ text.old.items ++ lines)) }
{
    for edge in circuit {
        push_edge(text, draft, *edge, why_of(draft, *edge))?;
    }
    Ok(())
}

/// Appends the lines of a circuit that the recurrence-constrained bound is due to.
pub(crate) fn push_circuit(
    alloc: Global,
    text: &mut Vec<u8>,
    problem: &Problem,
) -> Result<(), OutOfMemory>
    ensures ok { OnOk result ((part : List ℕ) × IsCircuitText problem.now part × (text.new.items ≡ text.old.items ++ part)) }
{
    let scheduling = problem.scheduling();
    let circuit = circuit_of(alloc, scheduling)?;
    push_circuit_line(text, circuit.as_slice(), scheduling.recurrences())?;
    push_edges(text, problem.draft(), circuit.as_slice())
}
