//! The graph of a loop by what its last interval came to.

ghost use Rattle.std.specs.Prelude.{◌≡◌, ◌++◌, ℕ, List, IfOk, OnOk};
ghost use Rattle.graph_text.specs.Drawings.{IsCritical};
ghost use Rattle.scheduled_graphs.specs.Drawn.{IsDrawnBy, IsScheduledGraph, IsUnscheduledGraph};

use crate::graphs::{push_scheduled, push_unscheduled};
use candidates::Cause;
use edges::Edge;
use graph_text::critical_circuit;
use loop_schedules::{Prepared, Schedule};
use machine_data::OutOfMemory;
use std::alloc::Global;
use told_intervals::Tried;

/// A circuit of a loop that needs its recurrence-constrained lower bound.
fn circuit_of(alloc: Global, prepared: &Prepared) -> Result<Vec<Edge>, OutOfMemory>
    ensures exact { IfOk result (λ circuit. IsCritical prepared.now.graph.edges prepared.now.recurrences circuit.items) }
{
    critical_circuit(alloc, prepared.edges(), prepared.recurrences())
}

/// Appends the graph of a loop with this schedule.
fn push_met(alloc: Global, text: &mut Vec<u8>, schedule: &Schedule) -> Result<(), OutOfMemory>
    ensures ok { OnOk result ((part : List ℕ) × IsScheduledGraph schedule.now part × (text.new.items ≡ text.old.items ++ part)) }
{
    let circuit = circuit_of(alloc, schedule.prepared())?;
    push_scheduled(text, circuit.as_slice(), schedule)
}

/// Appends the graph of a loop that has no kernel, by this cause.
fn push_failed(
    alloc: Global,
    text: &mut Vec<u8>,
    prepared: &Prepared,
    cause: Cause,
) -> Result<(), OutOfMemory>
    ensures ok { OnOk result ((part : List ℕ) × IsUnscheduledGraph prepared.now cause part × (text.new.items ≡ text.old.items ++ part)) }
{
    let circuit = circuit_of(alloc, prepared)?;
    push_unscheduled(text, prepared, circuit.as_slice(), cause)
}

/// Appends the graph of a loop by what an interval came to: by [`push_scheduled`] with the schedule of its kernel where it gives one, and by
/// [`push_unscheduled`] with the cause where it gives none, which is the last interval then. Where a circuit of dependences needs the loop's
/// recurrence-constrained lower bound, one such circuit is red.
///
/// # Errors
/// [`OutOfMemory`] where memory ran out. The text is left with a part of the graph.
pub fn push_drawn(
    alloc: Global,
    text: &mut Vec<u8>,
    prepared: &Prepared,
    tried: &Tried,
) -> Result<(), OutOfMemory>
    ensures ok { OnOk result ((part : List ℕ) × IsDrawnBy prepared.now tried.now part × (text.new.items ≡ text.old.items ++ part)) }
{
    match tried {
        Tried::Met(met) => push_met(alloc, text, &met.schedule),
        Tried::Failed(reason) => push_failed(alloc, text, prepared, reason.cause()),
    }
}
