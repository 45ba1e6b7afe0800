//! The operations of a kernel.

ghost use Rattle.std.specs.Prelude.{◌≡◌, ◌<◌, ◌≤◌, ◌+◌, ◌%◌, [], length, slice_index, slice_get, option_map, Some, IfOk, vec_len, vec_capacity};
ghost use Rattle.loop_schedules.specs.Schedules.{row_of, stage_of};
ghost use Rattle.overlap.specs.Emission.{address_of, operation_of, operations_from};
ghost use Rattle.rotating.specs.inner.Naming.{AreNumbers};
ghost use Rattle.machine_data.specs.declared.limits.TheConstants.{MAX_REGISTERS};

use crate::kernels::naming::{address_of, register_name, sources_of};
use crate::numbers::allotment::Allotment;
use kernel::{Address, Operation, Operations};
use loop_data::Statement;
use loop_schedules::Schedule;
use machine_data::OutOfMemory;
use std::alloc::Global;

/// The row of an operation.
fn row_of(schedule: &Schedule, op: usize) -> u16
    requires { op < length schedule.now.problem.operations }
    ensures { result ≡ row_of schedule.now op }
{
    (schedule.time(op) % schedule.ii()) as u16
}

/// The stage of an operation.
fn stage_of(schedule: &Schedule, op: usize) -> u64
    requires { op < length schedule.now.problem.operations }
    ensures value { result ≡ stage_of schedule.now op }
    ensures few { result < 64 }
{
    schedule.time(op) / schedule.ii()
}

/// The alternative of an operation.
fn alternative_of(schedule: &Schedule, op: usize) -> u8
    requires { op < length schedule.now.problem.operations }
    ensures { result ≡ slice_index schedule.now.choices op }
{
    schedule.alternative(op) as u8
}

/// The name of the register that a statement of this stage writes, where it gives a value.
fn destination_of(registers: u64, number: usize, stage: u64, statement: &Statement) -> Option<u16>
    requires some { 1 ≤ registers }
    requires few { registers ≤ MAX_REGISTERS }
    requires number { number < registers }
    requires stage { stage ≤ 64 }
    ensures { result ≡ option_map (λ _. (number + 0 + stage) % registers) statement.now.name }
{
    match &statement.name {
        Some(_) => Some(register_name(registers, number, 0, stage)),
        None => None,
    }
}

/// The cell of a statement of this stage, where it has one.
fn cell_of(stage: u64, statement: &Statement) -> Option<Address>
    requires { stage ≤ 64 }
    ensures { result ≡ option_map (address_of stage) statement.now.place }
{
    match statement.place {
        Some(place) => Some(address_of(stage, place)),
        None => None,
    }
}

/// The operation of a statement.
fn operation_of(
    alloc: Global,
    schedule: &Schedule,
    allotment: &Allotment,
    numbers: &[usize],
    op: usize,
    statement: &Statement,
) -> Operation
    requires numbers { AreNumbers schedule.now.problem.loop allotment.now numbers.now }
    requires statement { slice_get schedule.now.problem.loop.statements op ≡ Some statement.now }
    ensures { result ≡ operation_of schedule.now allotment.now op statement.now }
{
    let prepared = schedule.prepared();
    let stage = stage_of(schedule, op);
    let operands = statement.operands.as_slice();
    Operation {
        row: row_of(schedule, op),
        stage: stage as u8,
        opcode: statement.opcode,
        latency: prepared.edges().latency(op),
        alternative: alternative_of(schedule, op),
        destination: destination_of(allotment.registers(), numbers[op], stage, statement),
        sources: sources_of(alloc, schedule, allotment, numbers, stage, operands),
        address: cell_of(stage, statement),
    }
}

/// Adds the operations of all statements.
fn push_operations(
    alloc: Global,
    schedule: &Schedule,
    allotment: &Allotment,
    numbers: &[usize],
    list: &mut Vec<Operation>,
)
    requires numbers { AreNumbers schedule.now.problem.loop allotment.now numbers.now }
    requires none { vec_len list.old ≡ 0 }
    requires empty { list.old.items ≡ [] }
    requires room { length schedule.now.problem.loop.statements ≤ vec_capacity list.old }
    ensures { list.new.items ≡ operations_from schedule.now allotment.now 0 schedule.now.problem.loop.statements }
{
    let statements = schedule.prepared().innermost().statements();
    for op in 0..statements.len() {
        list.push_reserved(operation_of(alloc, schedule, allotment, numbers, op, &statements[op]));
    }
}

/// The operations of a schedule, in text order.
pub(crate) fn operations(
    alloc: Global,
    schedule: &Schedule,
    allotment: &Allotment,
    numbers: &[usize],
) -> Result<Operations, OutOfMemory>
    requires numbers { AreNumbers schedule.now.problem.loop allotment.now numbers.now }
    ensures { IfOk result (λ l. l ≡ operations_from schedule.now allotment.now 0 schedule.now.problem.loop.statements) }
{
    let count = schedule.prepared().operations();
    let mut list = Vec::with_capacity(alloc, count)?;
    push_operations(alloc, schedule, allotment, numbers, &mut list);
    Ok(Operations::new(list))
}
