//! The first fault of the register files, the operations, the values, the reads and the orders of a draft.

ghost use Rattle.std.specs.Prelude.{◌≡◌, length, map};
ghost use Rattle.problems.specs.Faults.{first_in, file_fault, operation_fault, value_fault, read_fault, order_fault};

use crate::draft::{Draft, File, Order, Value};
use crate::fault::Fault;
use machine_data::limits::{
    MAX_DELAY, MAX_DISTANCE, MAX_LATENCY, MAX_OFFSET, MAX_ORDER_DISTANCE, MAX_REGISTERS,
};
use registers::Read;

/// The fault of a register file, by its number.
fn file_fault(number: usize, file: File) -> Option<Fault>
    ensures { result ≡ file_fault number file }
{
    match file {
        File::Rotating(registers) if !(1..=MAX_REGISTERS as usize).contains(&registers) => {
            Some(Fault::Registers(number))
        }
        _ => None,
    }
}

/// The first fault of the register files.
pub(crate) fn first_in_files(files: &[File]) -> Option<Fault>
    ensures { result ≡ first_in file_fault files.now }
{
    for (number, file) in files.iter().enumerate() {
        if let Some(fault) = file_fault(number, *file) {
            return Some(fault);
        }
    }
    None
}

/// The first fault of the operations, where there are `kinds` kinds.
pub(crate) fn first_in_operations(kinds: usize, operations: &[usize]) -> Option<Fault>
    ensures { result ≡ first_in (operation_fault kinds) operations.now }
{
    for (number, kind) in operations.iter().enumerate() {
        if *kind >= kinds {
            return Some(Fault::NoKind(number));
        }
    }
    None
}

/// The first fault of a value, by its number.
fn value_fault(operations: usize, files: usize, number: usize, value: &Value) -> Option<Fault>
    ensures { result ≡ value_fault operations files number value.now }
{
    if value.maker >= operations {
        return Some(Fault::NoMaker(number));
    }
    if value.lands > u64::from(MAX_LATENCY) {
        return Some(Fault::Lands(number));
    }
    if value.file >= files {
        return Some(Fault::NoFile(number));
    }
    None
}

/// The first fault of the values, where there are `operations` operations and `files` register files.
pub(crate) fn first_in_values(operations: usize, files: usize, values: &[Value]) -> Option<Fault>
    ensures { result ≡ first_in (value_fault operations files) values.now }
{
    for (number, value) in values.iter().enumerate() {
        if let Some(fault) = value_fault(operations, files, number, value) {
            return Some(fault);
        }
    }
    None
}

/// The first fault of a read, by its number.
fn read_fault(draft: &Draft, number: usize, read: &Read) -> Option<Fault>
    ensures { result ≡ read_fault draft.now number read.now }
{
    let Some(value) = draft.values.get(read.value) else {
        return Some(Fault::NoValue(number));
    };
    if read.reader >= draft.operations.len() {
        return Some(Fault::NoReader(number));
    }
    if read.distance > u64::from(MAX_DISTANCE) {
        return Some(Fault::Distance(number));
    }
    if read.offset > u64::from(MAX_OFFSET) {
        return Some(Fault::ReadOffset(number));
    }
    if read.distance == 0 && value.maker >= read.reader {
        return Some(Fault::ReadBackward(number));
    }
    None
}

/// The first fault of these reads in a draft.
pub(crate) fn first_in_reads(draft: &Draft, reads: &[Read]) -> Option<Fault>
    ensures { result ≡ first_in (read_fault draft.now) reads.now }
{
    for (number, read) in reads.iter().enumerate() {
        if let Some(fault) = read_fault(draft, number, read) {
            return Some(fault);
        }
    }
    None
}

/// The first fault of an order, by its number.
fn order_fault(operations: usize, number: usize, order: &Order) -> Option<Fault>
    ensures { result ≡ order_fault operations number order.now }
{
    if order.from >= operations {
        return Some(Fault::NoFrom(number));
    }
    if order.to >= operations {
        return Some(Fault::NoTo(number));
    }
    if !(-MAX_DELAY..=MAX_DELAY).contains(&order.delay) {
        return Some(Fault::Delay(number));
    }
    if order.distance > MAX_ORDER_DISTANCE {
        return Some(Fault::OrderDistance(number));
    }
    if order.distance == 0 && order.from >= order.to {
        return Some(Fault::OrderBackward(number));
    }
    None
}

/// The first fault of the orders of `operations` operations.
pub(crate) fn first_in_orders(operations: usize, orders: &[Order]) -> Option<Fault>
    ensures { result ≡ first_in (order_fault operations) orders.now }
{
    for (number, order) in orders.iter().enumerate() {
        if let Some(fault) = order_fault(operations, number, order) {
            return Some(fault);
        }
    }
    None
}
