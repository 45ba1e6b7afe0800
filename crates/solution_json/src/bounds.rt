//! What the bounds of a problem are due to.

ghost use Rattle.std.specs.Prelude.{◌≡◌, ◌≤◌, length, IfOk};
ghost use Rattle.machine_data.specs.declared.limits.TheConstants.{MAX_STATEMENTS};
ghost use Rattle.serde_json.specs.View.{view};
ghost use Rattle.outcome_text.specs.Notes.{stops_of};
ghost use Rattle.solution_json.specs.Bounds.{circuit_value};
ghost use Rattle.solution_json.specs.Parts.{op_names};

use crate::told::told_names;
use circuits::sums_of;
use edges::Edge;
use machine_data::OutOfMemory;
use problems::Draft;
use serde_json::{Value, json};
use std::alloc::Global;

/// The operations that a walk goes on from.
fn stops_of(alloc: Global, walk: &[Edge]) -> Result<Vec<usize>, OutOfMemory>
    ensures { IfOk result (λ stops. stops.items ≡ stops_of walk.now) }
{
    walk.iter()
        .map(|edge| usize::from(edge.from))
        .collect(alloc)
}

/// The operations that a walk goes on from, by their names.
fn told_stops(alloc: Global, draft: &Draft, walk: &[Edge]) -> Result<Value, OutOfMemory>
    ensures { IfOk result (λ v. view v ≡ op_names draft.now (stops_of walk.now)) }
{
    let stops = stops_of(alloc, walk)?;
    told_names(alloc, draft.names.operations.as_slice(), stops.as_slice())
}

/// A circuit, where it has edges.
pub(crate) fn told_circuit(
    alloc: Global,
    draft: &Draft,
    circuit: &[Edge],
) -> Result<Value, OutOfMemory>
    requires few { length circuit.now ≤ MAX_STATEMENTS }
    ensures { IfOk result (λ v. view v ≡ circuit_value draft.now circuit.now) }
{
    if circuit.is_empty() {
        return Ok(Value::Null);
    }
    let sums = sums_of(circuit);
    json!(in alloc; {
        "operations": told_stops(alloc, draft, circuit)?,
        "delay": sums.delay,
        "distance": sums.distance
    })
}
