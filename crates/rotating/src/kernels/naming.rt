//! The names of registers in a kernel.

ghost use Rattle.std.specs.Prelude.{◌≡◌, ◌<◌, ◌≤◌, ◌+◌, ◌%◌, ℕ, length, map};
ghost use Rattle.std.specs.List.{All};
ghost use Rattle.loop_data.specs.Loops.{MayRead};
ghost use Rattle.overlap.specs.Emission.{address_of, source_of};
ghost use Rattle.rotating.specs.inner.Naming.{AreNumbers};
ghost use Rattle.machine_data.specs.declared.limits.TheConstants.{MAX_REGISTERS};

use crate::numbers::allotment::Allotment;
use kernel::{Address, Source, Sources};
use loop_data::{Operand, Place};
use loop_schedules::Schedule;
use smallvec::SmallVec;
use std::alloc::Global;

/// Writes the number of each statement's value, where it has one, by the statements.
pub(crate) fn fill_numbers(schedule: &Schedule, allotment: &Allotment, table: &mut [usize])
    requires { length table.old ≡ 128 }
    ensures long { length table.new ≡ 128 }
    ensures numbers { AreNumbers schedule.now.problem.loop allotment.now table.new }
{
    let statements = schedule.prepared().innermost().statements();
    let numbers = allotment.numbers();
    let mut rank = 0;
    for q in 0..statements.len() {
        table[q] = if rank < numbers.len() {
            numbers[rank]
        } else {
            0
        };
        if statements[q].name.is_some() {
            rank += 1;
        }
    }
}

/// The name, in a stage, of the register of a value as it was `distance` iterations ago.
pub(crate) fn register_name(registers: u64, number: usize, distance: u8, stage: u64) -> u16
    requires some { 1 ≤ registers }
    requires few { registers ≤ MAX_REGISTERS }
    requires number { number < registers }
    requires stage { stage ≤ 64 }
    ensures value { result ≡ (number + distance + stage) % registers }
    ensures few { result < registers }
{
    ((number as u64 + u64::from(distance) + stage) % registers) as u16
}

/// The cell of an operation of this stage.
pub(crate) fn address_of(stage: u64, place: Place) -> Address
    requires stage { stage ≤ 64 }
    ensures { result ≡ address_of stage place }
{
    Address {
        array: place.array,
        offset: i16::from(place.offset) - stage as i16,
    }
}

/// What an operation of this stage reads by an operand.
fn source_of(
    schedule: &Schedule,
    allotment: &Allotment,
    numbers: &[usize],
    stage: u64,
    operand: Operand,
) -> Source
    requires numbers { AreNumbers schedule.now.problem.loop allotment.now numbers.now }
    requires stage { stage ≤ 64 }
    requires operand { (reader : ℕ) × MayRead schedule.now.problem.loop reader operand }
    ensures { result ≡ source_of schedule.now allotment.now stage operand }
{
    match operand {
        Operand::Constant(value) => Source::Constant(value),
        Operand::Parameter(number) => Source::Parameter(number),
        Operand::Value {
            statement,
            distance,
        } => {
            let number = numbers[statement as usize];
            Source::Register(register_name(allotment.registers(), number, distance, stage))
        }
    }
}

/// What an operation of this stage reads, in order. There are at most three sources, which stand in
/// place.
pub(crate) fn sources_of(
    alloc: Global,
    schedule: &Schedule,
    allotment: &Allotment,
    numbers: &[usize],
    stage: u64,
    operands: &[Operand],
) -> Sources
    requires numbers { AreNumbers schedule.now.problem.loop allotment.now numbers.now }
    requires stage { stage ≤ 64 }
    requires few { length operands.now ≤ 3 }
    requires operands { (reader : ℕ) × All (MayRead schedule.now.problem.loop reader) operands.now }
    ensures { result ≡ map (source_of schedule.now allotment.now stage) operands.now }
{
    let mut list = SmallVec::new(alloc);
    for operand in operands {
        list.push_reserved(source_of(schedule, allotment, numbers, stage, *operand));
    }
    Sources::new(list)
}
