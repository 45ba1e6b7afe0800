//! The graph of a problem with its solution, or with why it has none.

ghost use Rattle.std.specs.Prelude.{◌≡◌, ◌<◌, ◌≤◌, ◌++◌, ℕ, List, length, OnOk};
ghost use Rattle.solutions.specs.Outcomes.{IsSolved, last_of};
ghost use Rattle.solutions.specs.declared.solving.outcome.Outcome.TheVariants as comes_to;
ghost use Rattle.problem_graphs.specs.Scheduled.{IsScheduledText, look_text, nodes_of, placed_line, result_text};

use crate::arrows::{Look, push_orders, push_reads};
use crate::nodes::{push_nodes, push_start, push_title};
use graph_marks::{
    push_failed_label, push_met_label, push_nodes_filled, push_nodes_plain, push_place,
};
use graph_text::critical_circuit;
use machine_data::OutOfMemory;
use problems::{Draft, Problem};
use solution_text::cause_word;
use solutions::{Outcome, Solution};
use std::alloc::Global;
use writing::Text;

/// The last interval that is tried, in cycles.
fn last_of(problem: &Problem) -> u64
    ensures { result ≡ last_of problem.now }
{
    problem.scheduling().mii() + problem.scheduling().ceiling()
}

/// Appends what a problem comes to, and how its operations look.
fn push_result(text: &mut Vec<u8>, problem: &Problem, outcome: &Outcome) -> Result<(), OutOfMemory>
    ensures ok { OnOk result (text.new.items ≡ text.old.items ++ (result_text problem.now outcome.now ++ look_text outcome.now)) }
{
    match outcome {
        Outcome::Met(solution) => {
            push_met_label(text, solution.ii(), solution.stages())?;
            push_nodes_filled(text)
        }
        Outcome::Failed(cause) => {
            push_failed_label(text, last_of(problem), cause_word(*cause))?;
            push_nodes_plain(text)
        }
    }
}

/// Appends the line of an operation that is issued at a time, in cycles.
fn push_placed(
    text: &mut Vec<u8>,
    draft: &Draft,
    op: usize,
    ii: u64,
    time: u64,
) -> Result<(), OutOfMemory>
    requires there { op < length draft.now.operations.items }
    requires some { 1 ≤ ii }
    ensures ok { OnOk result (text.new.items ≡ text.old.items ++ placed_line draft.now ii time op) }
{
    push_start(text, draft, op)?;
    push_place(text, ii, time)
}

/// Appends the lines of the operations of a solution.
fn push_all_placed(
    text: &mut Vec<u8>,
    draft: &Draft,
    solution: &Solution,
) -> Result<(), OutOfMemory>
    requires { length solution.now.problem.scheduling.operations ≡ length draft.now.operations.items }
    ensures ok { OnOk result (text.new.items ≡ text.old.items ++ nodes_of draft.now (comes_to.Met solution.now)) }
{
    for op in 0..draft.operations.len() {
        push_placed(text, draft, op, solution.ii(), solution.time(op))?;
    }
    Ok(())
}

/// Appends the lines of the operations.
fn push_all(text: &mut Vec<u8>, problem: &Problem, outcome: &Outcome) -> Result<(), OutOfMemory>
    requires { IsSolved problem.now outcome.now }
    ensures ok { OnOk result (text.new.items ≡ text.old.items ++ nodes_of problem.now.draft outcome.now) }
{
    match outcome {
        Outcome::Met(solution) => push_all_placed(text, problem.draft(), solution),
        Outcome::Failed(_) => push_nodes(text, problem.draft()),
    }
}

/// Appends the graph of a problem with what solving it came to, as [`push_dot`](crate::push_dot) does, but for this. The label has the
/// interval of the solution, in cycles, and its stages after the bounds, and each operation has a second line with its issue time, in cycles,
/// its row and its stage; operations in one stage have one color. Where there is no solution the label has the last interval that was tried,
/// in cycles, and the word of why that one gives none, and operations have no places and no colors. Either way arrows with a distance are
/// dashed, and those of the circuit are red.
///
/// # Errors
/// [`OutOfMemory`] where memory ran out. The text is left with a part of the graph.
pub fn push_scheduled(
    alloc: Global,
    text: &mut Vec<u8>,
    name: &str,
    problem: &Problem,
    outcome: &Outcome,
) -> Result<(), OutOfMemory>
    requires { IsSolved problem.now outcome.now }
    ensures ok { OnOk result ((part : List ℕ) × IsScheduledText name.now problem.now outcome.now part × (text.new.items ≡ text.old.items ++ part)) }
{
    let scheduling = problem.scheduling();
    let circuit = critical_circuit(alloc, scheduling.edges(), scheduling.recurrences())?;
    push_title(text, name, scheduling)?;
    push_result(text, problem, outcome)?;
    push_all(text, problem, outcome)?;
    push_reads(text, problem.draft(), circuit.as_slice(), Look::Scheduled)?;
    push_orders(text, problem.draft(), circuit.as_slice(), Look::Scheduled)?;
    text.push_piece("}\n")
}
