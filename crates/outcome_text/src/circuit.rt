//! The line of a circuit that the recurrence-constrained lower bound is due to.

ghost use Rattle.std.specs.Prelude.{◌≡◌, ◌≤◌, ◌++◌, List, length, IfOk, OnOk};
ghost use Rattle.machine_data.specs.declared.limits.TheConstants.{MAX_STATEMENTS};
ghost use Rattle.edges.specs.Edges.{EdgeData};
ghost use Rattle.outcome_text.specs.Notes.{IsCircuitOf, circuit_line, stops_of, sums_text};

use crate::listed::push_listed;
use circuits::{Sums, circuit_above, sums_of};
use edges::Edge;
use machine_data::OutOfMemory;
use problems::{Draft, Problem};
use std::alloc::Global;
use writing::{Text, push_signed, push_told};

/// A circuit that the recurrence-constrained bound is due to, without edges just where the bound is 1: it does not fit an interval
/// that is one cycle shorter.
///
/// # Errors
/// Memory ran out.
pub fn circuit_of(alloc: Global, scheduling: &schedules::Problem) -> Result<Vec<Edge>, OutOfMemory>
    ensures exact { IfOk result (λ circuit. IsCircuitOf scheduling.now circuit.items) }
    ensures few { IfOk result (λ circuit. length circuit.items ≤ MAX_STATEMENTS) }
{
    let bound = scheduling.recurrences();
    if bound <= 1 {
        return Ok(Vec::new(alloc));
    }
    match circuit_above(alloc, scheduling.edges(), bound - 1)? {
        Some(circuit) => Ok(circuit),
        None => unreachable!(),
    }
}

/// The operations that a walk goes on from.
fn stops_of(alloc: Global, walk: &[Edge]) -> Result<Vec<usize>, OutOfMemory>
    ensures { IfOk result (λ stops. stops.items ≡ stops_of walk.now) }
{
    walk.iter()
        .map(|edge| usize::from(edge.from))
        .collect(alloc)
}

/// Appends the sums of a circuit.
fn push_sums(text: &mut Vec<u8>, sums: Sums) -> Result<(), OutOfMemory>
    ensures ok { OnOk result (text.new.items ≡ text.old.items ++ sums_text sums.delay sums.distance) }
{
    push_signed(text, " takes ", sums.delay)?;
    push_told(text, " cycles over ", sums.distance)?;
    text.push_piece(" iterations\n")
}

/// Appends the line of a circuit; nothing where it has no edges.
fn push_circuit_line(
    alloc: Global,
    text: &mut Vec<u8>,
    draft: &Draft,
    circuit: &[Edge],
) -> Result<(), OutOfMemory>
    requires few { length circuit.now ≤ MAX_STATEMENTS }
    ensures ok { OnOk result (text.new.items ≡ text.old.items ++ circuit_line draft.now circuit.now) }
{
    if circuit.is_empty() {
        return Ok(());
    }
    let stops = stops_of(alloc, circuit)?;
    let names = draft.names.operations.as_slice();
    push_listed(text, "# circuit", names, stops.as_slice())?;
    push_sums(text, sums_of(circuit))
}

/// Appends the line of a circuit that the recurrence-constrained bound is due to, where the bound is above 1.
pub(crate) fn push_circuit(
    alloc: Global,
    text: &mut Vec<u8>,
    problem: &Problem,
) -> Result<(), OutOfMemory>
    ensures ok { OnOk result ((circuit : List EdgeData) × IsCircuitOf problem.now.scheduling circuit × (text.new.items ≡ text.old.items ++ circuit_line problem.now.draft circuit)) }
{
    let circuit = circuit_of(alloc, problem.scheduling())?;
    push_circuit_line(alloc, text, problem.draft(), circuit.as_slice())
}
