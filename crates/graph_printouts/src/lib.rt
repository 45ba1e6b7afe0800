//! What `edges` and `dot` print of a machine and loops.
#![tactic(auto)]

ghost use Rattle.graph.specs.Units.{first_lacking};
ghost use Rattle.file_faults.specs.Answers.{AnswersOn};
ghost use Rattle.graph_printouts.specs.Graphs.{IsDotText, IsEdgesText};

use file_faults::FileFault;
use graph_text::{dot_graphs, edges_lines};
use listing_printouts::push_last;
use loop_data::Loop;
use machine::Machine;
use std::alloc::Global;
use written::Printout;

/// What `edges` prints of loops on a machine: the bounds of each loop, its operations and its dependences, and how many loops
/// there are.
///
/// # Errors
/// [`FileFault`] for the first statement whose opcode the machine has no table for, or where memory ran out.
pub fn edges_text(alloc: Global, machine: &Machine, loops: &[Loop]) -> Result<Printout, FileFault>
    ensures { AnswersOn (IsEdgesText machine.now loops.now) (first_lacking machine.now loops.now) result }
{
    let mut text = edges_lines(alloc, machine, loops)?;
    push_last(&mut text, loops.len() as u64)?;
    Ok(Printout::new(text, true))
}

/// What `dot` prints of loops on a machine: the dependences of each loop as a graph for Graphviz.
///
/// # Errors
/// [`FileFault`] for the first statement whose opcode the machine has no table for, or where memory ran out.
pub fn dot_text(alloc: Global, machine: &Machine, loops: &[Loop]) -> Result<Printout, FileFault>
    ensures { AnswersOn (IsDotText machine.now loops.now) (first_lacking machine.now loops.now) result }
{
    Ok(Printout::new(dot_graphs(alloc, machine, loops)?, true))
}
