//! Why a loop has its interval.

ghost use Rattle.std.specs.Prelude.{◌≡◌, ◌≤◌, ◌++◌, ℕ, List, false, length, IfOk, OnOk};
ghost use Rattle.serde_json.specs.Data.{Data, array};
ghost use Rattle.serde_json.specs.View.{items_of, members_view, view};
ghost use Rattle.serde_json.specs.Written.{compact_text, has_float};
ghost use Rattle.walks.specs.Walks.{AreHeights};
ghost use Rattle.loop_schedules.specs.Problems.{mii_of};
ghost use Rattle.told_choices.specs.Told.{IsTold};
ghost use Rattle.explain_json.specs.Loops.{IsLoopJson, MembersData, failed_object, members_of, object_with};
ghost use Rattle.explain_json.specs.inner.Seen.{loop_members};

use crate::circuit::told_circuit;
use crate::dependences::told_edges;
use crate::kernels::told_kernel;
use crate::operations::told_operations;
use crate::tried::told_tried;
use crate::units::{told_set, told_units};
use candidates::Cause;
use edges::Edge;
use json_objects::{object_of, with, with_value};
use loop_schedules::Prepared;
use machine_data::{Machine, OutOfMemory};
use serde_json::{Map, ToValue, Value};
use std::alloc::Global;
use told_choices::{Chosen, Told};
use unit_sets::UnitSet;
use walks::{heights, longer_intervals_fit};

/// The height of each operation at the least interval that is tried, in cycles.
fn heights_of(alloc: Global, prepared: &Prepared) -> Result<Vec<u64>, OutOfMemory>
    ensures each { IfOk result (λ heights. length heights.items ≡ length prepared.now.operations) }
    ensures exact { IfOk result (λ heights. AreHeights prepared.now.graph (mii_of prepared.now) heights.items) }
{
    longer_intervals_fit();
    heights(alloc, prepared.edges(), prepared.mii())
}

/// What a loop with these heights is told by, whether it has a kernel or not; `edges` tells its dependences.
fn members_of(
    alloc: Global,
    machine: &Machine,
    alternatives: &[u8],
    set: &UnitSet,
    circuit: &[Edge],
    prepared: &Prepared,
    told: &Told,
    heights: &[u64],
    edges: Value,
) -> Result<Map<String, Value>, OutOfMemory>
    requires told { IsTold prepared.now told.now }
    requires alternatives { length alternatives.now ≡ length prepared.now.operations }
    requires few { length circuit.now ≤ 128 }
    requires each { length heights.now ≡ length prepared.now.operations }
    ensures { (objects : List Data) → view edges ≡ array (items_of objects)
        → IfOk result (λ m. members_view m.entries ≡ loop_members prepared.now (members_of (record { machine = machine.now; alternatives = alternatives.now; set = set.now; circuit = circuit.now; problem = prepared.now; told = told.now }) heights.now objects told.now.chosen)) }
{
    let bound = prepared.recurrences();
    let circuit = told_circuit(alloc, prepared.edges(), bound, circuit);
    let name = prepared.innermost().name().as_str().to_value(alloc);
    let operations = told_operations(alloc, prepared, heights, &told.chosen);
    let resources = Value::from(prepared.resources());
    let units = told_units(alloc, machine, prepared, alternatives);
    let members = with(alloc, Ok(Map::new(alloc)), "circuit", circuit);
    let members = with_value(alloc, members, "edges", edges);
    let members = with_value(alloc, members, "mii", Value::from(prepared.mii()));
    let members = with(alloc, members, "name", name);
    let members = with(alloc, members, "operations", operations);
    let members = with_value(alloc, members, "recurrences", Value::from(bound));
    let members = with_value(alloc, members, "resources", resources);
    let members = with(alloc, members, "set", told_set(alloc, machine, set));
    let members = with(alloc, members, "tried", told_tried(alloc, prepared, told));
    with(alloc, members, "units", units)
}

/// A loop that has no kernel, with the members that it has in either case.
fn told_failed(
    alloc: Global,
    prepared: &Prepared,
    members: Result<Map<String, Value>, OutOfMemory>,
    cause: Cause,
) -> Result<Value, OutOfMemory>
    ensures { (ms : MembersData) → IfOk members (λ m. members_view m.entries ≡ loop_members prepared.now ms) → IfOk result (λ v. view v ≡ failed_object prepared.now ms cause) }
{
    let last = Value::from(prepared.mii() + prepared.ceiling());
    let members = with(alloc, members, "cause", cause.word().to_value(alloc));
    object_of(with_value(alloc, members, "failed_to", last))
}

/// A loop, with the members that it has in either case.
fn told_loop(
    alloc: Global,
    machine: &Machine,
    set: &UnitSet,
    free: bool,
    prepared: &Prepared,
    told: &Told,
    members: Result<Map<String, Value>, OutOfMemory>,
) -> Result<Value, OutOfMemory>
    requires told { IsTold prepared.now told.now }
    ensures { (ms : MembersData) → IfOk members (λ m. members_view m.entries ≡ loop_members prepared.now ms) → IfOk result (λ v. view v ≡ object_with machine.now set.now free prepared.now told.now.reasons.items ms told.now.chosen) }
{
    match &told.chosen {
        Chosen::Met(ii, met, figures) => {
            let reasons = told.reasons.as_slice();
            let kernel = told_kernel(
                alloc, machine, set, free, prepared, reasons, *ii, met, figures,
            );
            object_of(with(alloc, members, "kernel", kernel))
        }
        Chosen::Failed(cause) => told_failed(alloc, prepared, members, *cause),
    }
}

/// Appends a value as JSON without blanks.
fn push_value(
    alloc: Global,
    text: &mut Vec<u8>,
    value: Result<Value, OutOfMemory>,
) -> Result<(), OutOfMemory>
    ensures { (d : Data) → IfOk value (λ v. view v ≡ d) → OnOk result (has_float d ≡ false → text.new.items ≡ text.old.items ++ compact_text d) }
{
    let value = value?;
    let bytes = value.to_vec(alloc)?;
    text.extend_from_slice(bytes.as_slice())
}

/// Appends why a loop has its interval, as a JSON object without blanks: its bounds, with the units that the choices `alternatives`
/// count, the fullest set of units and a circuit that needs the recurrence-constrained bound; its operations and dependences; the
/// intervals that were tried; and its kernel, or why it has none. Keys stand in the order of their bytes.
///
/// # Errors
/// Memory ran out. The text is left with a part of that.
pub fn push_loop_json(
    alloc: Global,
    text: &mut Vec<u8>,
    machine: &Machine,
    alternatives: &[u8],
    set: &UnitSet,
    circuit: &[Edge],
    prepared: &Prepared,
    told: &Told,
) -> Result<(), OutOfMemory>
    requires told { IsTold prepared.now told.now }
    requires alternatives { length alternatives.now ≡ length prepared.now.operations }
    requires few { length circuit.now ≤ 128 }
    ensures ok { OnOk result ((part : List ℕ) × IsLoopJson (record { machine = machine.now; alternatives = alternatives.now; set = set.now; circuit = circuit.now; problem = prepared.now; told = told.now }) part
        × (text.new.items ≡ text.old.items ++ part)) }
{
    let heights = heights_of(alloc, prepared)?;
    let edges = told_edges(alloc, prepared.innermost(), prepared.edges())?;
    let members = members_of(
        alloc,
        machine,
        alternatives,
        set,
        circuit,
        prepared,
        told,
        heights.as_slice(),
        edges,
    );
    let free = circuit.is_empty();
    let object = told_loop(alloc, machine, set, free, prepared, told, members);
    push_value(alloc, text, object)
}
