//! The operations of a loop.

ghost use Rattle.std.specs.Prelude.{◌≡◌, ◌<◌, length, IfOk};
ghost use Rattle.serde_json.specs.View.{members_view, view};
ghost use Rattle.told_choices.specs.Told.{HasEvidence};
ghost use Rattle.graph_text.specs.Names.{opcode_word};
ghost use Rattle.explain_json.specs.Operations.{operation_object, operations_value, placed_object};
ghost use Rattle.explain_json.specs.Parts.{array_of};
ghost use Rattle.explain_json.specs.inner.Objects.{operation_members};
ghost use Rattle.explain_json.specs.Units.{operations_in};

use crate::names::told_name;
use json_objects::{object_of, with, with_value};
use loop_schedules::{Prepared, Schedule};
use machine_data::OutOfMemory;
use serde_json::{Map, ToValue, Value};
use std::alloc::Global;
use told_choices::Chosen;

/// The word of an operation's opcode.
fn opcode_word(prepared: &Prepared, op: usize) -> &'static str
    requires { op < length prepared.now.operations }
    ensures { result.now ≡ opcode_word prepared.now.loop op }
{
    prepared.innermost().statements()[op].opcode.word()
}

/// What is told of an operation, whether it is scheduled or not.
fn members_of(
    alloc: Global,
    prepared: &Prepared,
    heights: &[u64],
    op: usize,
) -> Result<Map<String, Value>, OutOfMemory>
    requires there { op < length prepared.now.operations }
    requires each { length heights.now ≡ length prepared.now.operations }
    ensures { IfOk result (λ m. members_view m.entries ≡ operation_members prepared.now heights.now op) }
{
    let height = heights[op];
    let latency = Value::from(prepared.edges().latency(op));
    let name = told_name(alloc, prepared.innermost(), op);
    let opcode = opcode_word(prepared, op).to_value(alloc);
    let members = with_value(alloc, Ok(Map::new(alloc)), "height", Value::from(height));
    let members = with_value(alloc, members, "latency", latency);
    let members = with(alloc, members, "name", name);
    with(alloc, members, "opcode", opcode)
}

/// An operation of a loop that has no kernel, with its height.
fn told_operation(
    alloc: Global,
    prepared: &Prepared,
    heights: &[u64],
    op: usize,
) -> Result<Value, OutOfMemory>
    requires there { op < length prepared.now.operations }
    requires each { length heights.now ≡ length prepared.now.operations }
    ensures { IfOk result (λ v. view v ≡ operation_object prepared.now heights.now op) }
{
    object_of(members_of(alloc, prepared, heights, op))
}

/// An operation of a loop that is scheduled, with its height and its slack.
fn told_placed(
    alloc: Global,
    prepared: &Prepared,
    heights: &[u64],
    schedule: &Schedule,
    slacks: &[u64],
    op: usize,
) -> Result<Value, OutOfMemory>
    requires there { op < length prepared.now.operations }
    requires each { length heights.now ≡ length prepared.now.operations }
    requires each_slack { length slacks.now ≡ length prepared.now.operations }
    requires same { schedule.now.problem ≡ prepared.now }
    ensures { IfOk result (λ v. view v ≡ placed_object prepared.now heights.now schedule.now slacks.now op) }
{
    let time = schedule.time(op);
    let alternative = Value::from(schedule.alternative(op));
    let row = Value::from(time % schedule.ii());
    let stage = Value::from(time / schedule.ii());
    let members = members_of(alloc, prepared, heights, op);
    let members = with_value(alloc, members, "alternative", alternative);
    let members = with_value(alloc, members, "row", row);
    let members = with_value(alloc, members, "slack", Value::from(slacks[op]));
    let members = with_value(alloc, members, "stage", stage);
    object_of(with_value(alloc, members, "time", Value::from(time)))
}

/// The operations of a loop that has no kernel.
fn told_all(alloc: Global, prepared: &Prepared, heights: &[u64]) -> Result<Value, OutOfMemory>
    requires each { length heights.now ≡ length prepared.now.operations }
    ensures { IfOk result (λ v. view v ≡ array_of (operation_object prepared.now heights.now) (operations_in prepared.now)) }
{
    let mut values = Vec::with_capacity(alloc, heights.len())?;
    for op in 0..prepared.operations() {
        values.push(told_operation(alloc, prepared, heights, op)?)?;
    }
    Ok(Value::Array(values))
}

/// The operations of a loop that is scheduled.
fn told_scheduled(
    alloc: Global,
    prepared: &Prepared,
    heights: &[u64],
    schedule: &Schedule,
    slacks: &[u64],
) -> Result<Value, OutOfMemory>
    requires each { length heights.now ≡ length prepared.now.operations }
    requires each_slack { length slacks.now ≡ length prepared.now.operations }
    requires same { schedule.now.problem ≡ prepared.now }
    ensures { IfOk result (λ v. view v ≡ array_of (placed_object prepared.now heights.now schedule.now slacks.now) (operations_in prepared.now)) }
{
    let mut values = Vec::with_capacity(alloc, heights.len())?;
    for op in 0..prepared.operations() {
        values.push(told_placed(alloc, prepared, heights, schedule, slacks, op)?)?;
    }
    Ok(Value::Array(values))
}

/// All operations, with their heights.
pub(crate) fn told_operations(
    alloc: Global,
    prepared: &Prepared,
    heights: &[u64],
    chosen: &Chosen,
) -> Result<Value, OutOfMemory>
    requires each { length heights.now ≡ length prepared.now.operations }
    requires evidence { HasEvidence prepared.now chosen.now }
    ensures { IfOk result (λ v. view v ≡ operations_value prepared.now heights.now chosen.now) }
{
    match chosen {
        Chosen::Met(_, met, figures) => {
            let slacks = figures.slacks.as_slice();
            told_scheduled(alloc, prepared, heights, &met.schedule, slacks)
        }
        Chosen::Failed(_) => told_all(alloc, prepared, heights),
    }
}
