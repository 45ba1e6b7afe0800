//! The operations of a solution.

ghost use Rattle.std.specs.Prelude.{◌≡◌, [], ◌++◌, ◌<◌, ◌≤◌, length, map, IfOk, OnOk};
ghost use Rattle.std.specs.List.{cons_option, range_with_len};
ghost use Rattle.machine_data.specs.declared.limits.TheConstants.{MAX_DISTANCE, MAX_STAGES};
ghost use Rattle.serde_json.specs.View.{view};
ghost use Rattle.schedules.specs.Schedules.{stage_of};
ghost use Rattle.solutions.specs.Solutions.{schedule_of};
ghost use Rattle.solution_json.specs.Operations.{hold_object, holds_array, operation_object, read_register, registers_read, registers_written, write_register};
ghost use Rattle.solution_json.specs.Parts.{array_of, register_object};

use crate::members::{object_of, with, with_count};
use crate::named::push_register;
use crate::told::told_name;
use machine_data::{OutOfMemory, Row};
use problems::Draft;
use registers::Read;
use serde_json::{Map, Value, json};
use solution_text::{held_rows, register_after, stage_of};
use solutions::Solution;
use std::alloc::Global;

/// A unit that an operation holds.
fn told_hold(alloc: Global, draft: &Draft, row: Row) -> Result<Value, OutOfMemory>
    ensures { IfOk result (λ v. view v ≡ hold_object draft.now row) }
{
    json!(in alloc; {
        "unit": told_name(alloc, draft.names.units.as_slice(), usize::from(row.unit))?,
        "offset": row.offset
    })
}

/// The units that an operation holds.
fn told_rows(alloc: Global, draft: &Draft, rows: &[Row]) -> Result<Value, OutOfMemory>
    ensures { IfOk result (λ v. view v ≡ array_of (hold_object draft.now) rows.now) }
{
    let mut values = Vec::with_capacity(alloc, rows.len())?;
    for row in rows {
        values.push(told_hold(alloc, draft, *row)?)?;
    }
    Ok(Value::Array(values))
}

/// The units that an operation holds by its alternative.
fn told_holds(alloc: Global, solution: &Solution, op: usize) -> Result<Value, OutOfMemory>
    requires { op < length solution.now.problem.scheduling.operations }
    ensures { IfOk result (λ v. view v ≡ holds_array solution.now op) }
{
    let draft = solution.problem().draft();
    told_rows(alloc, draft, held_rows(solution, op))
}

/// Adds the register that a read of an operation of this stage finds its value in; nothing of a read of another one.
fn push_read(
    alloc: Global,
    values: &mut Vec<Value>,
    solution: &Solution,
    op: usize,
    stage: u64,
    read: Read,
) -> Result<(), OutOfMemory>
    requires stage { stage ≡ stage_of (schedule_of solution.now) op }
    requires few { stage < MAX_STAGES }
    requires value { read.value < length solution.now.problem.draft.values.items }
    requires distance { read.distance ≤ MAX_DISTANCE }
    ensures ok { OnOk result (map view values.new.items ≡ map view values.old.items ++ map (register_object solution.now.problem.draft) (cons_option (read_register solution.now op read) [])) }
{
    if read.reader != op {
        return Ok(());
    }
    let register = register_after(solution, read.value, read.distance + stage);
    push_register(alloc, values, solution.problem().draft(), register)
}

/// The registers that an operation of this stage reads.
fn told_reads(
    alloc: Global,
    solution: &Solution,
    op: usize,
    stage: u64,
) -> Result<Value, OutOfMemory>
    requires stage { stage ≡ stage_of (schedule_of solution.now) op }
    requires few { stage < MAX_STAGES }
    ensures { IfOk result (λ v. view v ≡ array_of (register_object solution.now.problem.draft) (registers_read solution.now op)) }
{
    let mut values = Vec::new(alloc);
    let reads = solution.problem().draft().reads.as_slice();
    for read in reads {
        push_read(alloc, &mut values, solution, op, stage, *read)?;
    }
    Ok(Value::Array(values))
}

/// Adds the register that an operation of this stage puts a value into; nothing of a value of another one.
fn push_write(
    alloc: Global,
    values: &mut Vec<Value>,
    solution: &Solution,
    op: usize,
    stage: u64,
    value: usize,
) -> Result<(), OutOfMemory>
    requires stage { stage ≡ stage_of (schedule_of solution.now) op }
    requires few { stage < MAX_STAGES }
    requires there { value < length solution.now.problem.draft.values.items }
    ensures ok { OnOk result (map view values.new.items ≡ map view values.old.items ++ map (register_object solution.now.problem.draft) (cons_option (write_register solution.now op value) [])) }
{
    let draft = solution.problem().draft();
    if draft.values[value].maker != op {
        return Ok(());
    }
    push_register(alloc, values, draft, register_after(solution, value, stage))
}

/// The registers that an operation of this stage writes.
fn told_writes(
    alloc: Global,
    solution: &Solution,
    op: usize,
    stage: u64,
) -> Result<Value, OutOfMemory>
    requires stage { stage ≡ stage_of (schedule_of solution.now) op }
    requires few { stage < MAX_STAGES }
    ensures { IfOk result (λ v. view v ≡ array_of (register_object solution.now.problem.draft) (registers_written solution.now op)) }
{
    let mut values = Vec::new(alloc);
    for value in 0..solution.problem().draft().values.len() {
        push_write(alloc, &mut values, solution, op, stage, value)?;
    }
    Ok(Value::Array(values))
}

/// An operation.
#[tactic(auto, unfolding(crate::specs::Operations::operation_object))]
fn told_operation(alloc: Global, solution: &Solution, op: usize) -> Result<Value, OutOfMemory>
    requires { op < length solution.now.problem.scheduling.operations }
    ensures { IfOk result (λ v. view v ≡ operation_object solution.now op) }
{
    let names = solution.problem().draft().names.operations.as_slice();
    let time = solution.time(op);
    let row = time % solution.ii();
    let stage = stage_of(solution, op);
    let name = told_name(alloc, names, op);
    let holds = told_holds(alloc, solution, op);
    let reads = told_reads(alloc, solution, op, stage);
    let writes = told_writes(alloc, solution, op, stage);
    let members = with(alloc, Ok(Map::new(alloc)), "name", name);
    let members = with_count(alloc, members, "time", time);
    let members = with_count(
        alloc,
        members,
        "alternative",
        solution.alternative(op) as u64,
    );
    let members = with_count(alloc, members, "row", row);
    let members = with_count(alloc, members, "stage", stage);
    let members = with(alloc, members, "holds", holds);
    let members = with(alloc, members, "reads", reads);
    object_of(with(alloc, members, "writes", writes))
}

/// All operations, in order.
pub(crate) fn told_operations(alloc: Global, solution: &Solution) -> Result<Value, OutOfMemory>
    ensures { IfOk result (λ v. view v ≡ array_of (operation_object solution.now) (range_with_len 0 (length solution.now.problem.scheduling.operations))) }
{
    let mut values = Vec::new(alloc);
    for op in 0..solution.problem().scheduling().operations() {
        values.push(told_operation(alloc, solution, op)?)?;
    }
    Ok(Value::Array(values))
}
