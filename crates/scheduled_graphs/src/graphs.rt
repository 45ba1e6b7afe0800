//! The graph of a loop, with its schedule or without one.

ghost use Rattle.std.specs.Prelude.{◌≡◌, ◌++◌, ℕ, List, OnOk};
ghost use Rattle.scheduled_graphs.specs.Graphs.{IsScheduledText, IsUnscheduledText};

use crate::arrows::push_arrows;
use crate::heads::{push_scheduled_head, push_unscheduled_head};
use crate::nodes::{push_all_placed, push_nodes};
use candidates::Cause;
use edges::Edge;
use loop_schedules::{Prepared, Schedule};
use machine_data::OutOfMemory;
use writing::Text;

/// Appends a loop's dependences with a schedule of the loop, as a graph in the language of Graphviz. Its label is the loop's name with the
/// lower bounds of the interval, the interval of the schedule, all in cycles, and its stages. Each operation is a node with its number,
/// labelled with its name and opcode and, in a second line, with its issue time, in cycles, its row and its stage; operations in one stage
/// have one colour. Each dependence is an edge, labelled with its [kind](graph_text::Kind), its delay in cycles and, unless that is 0, after
/// an `@` its distance in iterations; it is dashed where it has a distance. The edges of the circuit are red; a circuit without edges makes
/// none red.
///
/// # Errors
/// [`OutOfMemory`] where memory ran out. The text is left with a part of the graph.
pub fn push_scheduled(
    text: &mut Vec<u8>,
    circuit: &[Edge],
    schedule: &Schedule,
) -> Result<(), OutOfMemory>
    ensures ok { OnOk result ((part : List ℕ) × IsScheduledText schedule.now circuit.now part × (text.new.items ≡ text.old.items ++ part)) }
{
    push_scheduled_head(text, schedule)?;
    push_all_placed(text, schedule)?;
    push_arrows(text, schedule.prepared(), circuit)?;
    text.push_piece("}\n")
}

/// Appends the same of a loop that has no kernel: its label has the last interval that was tried, in cycles, and the cause for which that one
/// gives none, and its operations have no places and no colors.
///
/// # Errors
/// [`OutOfMemory`] where memory ran out. The text is left with a part of the graph.
pub fn push_unscheduled(
    text: &mut Vec<u8>,
    prepared: &Prepared,
    circuit: &[Edge],
    cause: Cause,
) -> Result<(), OutOfMemory>
    ensures ok { OnOk result ((part : List ℕ) × IsUnscheduledText prepared.now circuit.now cause part × (text.new.items ≡ text.old.items ++ part)) }
{
    push_unscheduled_head(text, prepared, cause)?;
    push_nodes(text, prepared.innermost())?;
    push_arrows(text, prepared, circuit)?;
    text.push_piece("}\n")
}
