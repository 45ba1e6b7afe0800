//! What callers in C are told.

ghost use Rattle.std.specs.Prelude.{◌≡◌, ◌≤◌};
ghost use Rattle.schedules.specs.Schedules.{stages_of};
ghost use Rattle.solutions.specs.Outcomes.{last_of};
ghost use Rattle.solutions.specs.Solutions.{schedule_of};
ghost use Rattle.capi.specs.Answers.{cause_numbers, failed_answer, fault_answer, fault_numbers, met_answer, misfit_answer, nothing, part_number, without_fault};

use problems::{Fault, Part};
use solutions::{Cause, Solution};

/// What is wrong with a problem, in numbers that count from 0; what a kind does not have is 0.
#[repr(C)]
#[derive(Clone, Copy)]
pub struct FaultNumbers {
    /// Which of the 24 kinds of faults, from 1, and 0 for none.
    pub kind: u64,
    /// Which part, of faults 1 to 3: from 1, units, files, kinds, operations, values, reads, orders.
    pub part: u64,
    /// The first number: a count, or which item.
    pub first: u64,
    /// The second number.
    pub second: u64,
    /// The third number.
    pub third: u64,
}

/// What a call tells beside the schedule. What does not belong to its status is 0.
#[repr(C)]
#[derive(Clone, Copy)]
pub struct Answer {
    /// The interval, in cycles: of the schedule, or the last one that was tried.
    pub interval: u64,
    /// How many stages the schedule has, 1 to 64.
    pub stages: u64,
    /// The least interval that is tried, in cycles: the greater one of the next two.
    pub mii: u64,
    /// The bound by the units, in cycles.
    pub resources: u64,
    /// The bound by the recurrences, in cycles.
    pub recurrences: u64,
    /// Why the last interval gives no schedule: 1 the alternatives of an operation, 2 the budget, 3 the stages, 4 the registers.
    pub cause: u64,
    /// The number of the register file in which a value has no register.
    pub file: u64,
    /// The number of that value.
    pub value: u64,
    /// Which argument is at fault: 1 the ratio, 2 the ceiling, 3 the times, 4 the alternatives, 5 the numbers.
    pub misfit: u64,
    /// What is wrong with the problem.
    pub fault: FaultNumbers,
}

/// No fault.
pub(crate) fn without_fault() -> FaultNumbers
    ensures { result ≡ without_fault }
{
    FaultNumbers {
        kind: 0,
        part: 0,
        first: 0,
        second: 0,
        third: 0,
    }
}

/// Nothing is told.
pub(crate) fn nothing() -> Answer
    ensures { result ≡ nothing }
{
    Answer {
        interval: 0,
        stages: 0,
        mii: 0,
        resources: 0,
        recurrences: 0,
        cause: 0,
        file: 0,
        value: 0,
        misfit: 0,
        fault: without_fault(),
    }
}

/// An argument does not fit.
pub(crate) fn misfit_answer(misfit: u64) -> Answer
    ensures { result ≡ misfit_answer misfit }
{
    Answer {
        misfit,
        ..nothing()
    }
}

/// The problem is at fault.
pub(crate) fn fault_answer(fault: Fault) -> Answer
    ensures { result ≡ fault_answer fault }
{
    Answer {
        fault: fault_numbers(fault),
        ..nothing()
    }
}

/// There is a solution.
pub(crate) fn met_answer(problem: &problems::Problem, solution: &Solution<'_>) -> Answer
    ensures { result ≡ met_answer problem.now solution.now }
{
    let scheduling = problem.scheduling();
    Answer {
        interval: solution.ii(),
        stages: solution.stages(),
        mii: scheduling.mii(),
        resources: scheduling.resources(),
        recurrences: scheduling.recurrences(),
        ..nothing()
    }
}

/// No interval gives a solution.
pub(crate) fn failed_answer(problem: &problems::Problem, cause: Cause) -> Answer
    ensures { result ≡ failed_answer problem.now cause }
{
    let scheduling = problem.scheduling();
    let (cause, file, value) = cause_numbers(cause);
    Answer {
        interval: scheduling.mii() + scheduling.ceiling(),
        mii: scheduling.mii(),
        resources: scheduling.resources(),
        recurrences: scheduling.recurrences(),
        cause,
        file,
        value,
        ..nothing()
    }
}

/// The number of a cause, and those of its register file and value.
fn cause_numbers(cause: Cause) -> (u64, u64, u64)
    ensures { result ≡ cause_numbers cause }
{
    match cause {
        Cause::Table => (1, 0, 0),
        Cause::Budget => (2, 0, 0),
        Cause::Stages => (3, 0, 0),
        Cause::Registers(file, value) => (4, file as u64, value as u64),
    }
}

/// The number of a part.
fn part_number(part: Part) -> u64
    ensures { result ≡ part_number part }
{
    match part {
        Part::Units => 1,
        Part::Files => 2,
        Part::Kinds => 3,
        Part::Operations => 4,
        Part::Values => 5,
        Part::Reads => 6,
        Part::Orders => 7,
    }
}

/// A kind of faults with its numbers.
fn numbers(kind: u64, first: usize, second: usize, third: usize) -> FaultNumbers
    ensures { result ≡ record { kind = kind; part = 0; first = first; second = second; third = third } }
{
    FaultNumbers {
        kind,
        part: 0,
        first: first as u64,
        second: second as u64,
        third: third as u64,
    }
}

/// A kind of faults with its part and number.
fn part_numbers(kind: u64, part: Part, first: usize) -> FaultNumbers
    ensures { result ≡ record { kind = kind; part = part_number part; first = first; second = 0; third = 0 } }
{
    FaultNumbers {
        kind,
        part: part_number(part),
        first: first as u64,
        second: 0,
        third: 0,
    }
}

/// A fault in numbers.
fn fault_numbers(fault: Fault) -> FaultNumbers
    ensures { result ≡ fault_numbers fault }
{
    match fault {
        Fault::Count(part, count) => part_numbers(1, part, count),
        Fault::NameCount(part) => part_numbers(2, part, 0),
        Fault::Repeated(part, name) => part_numbers(3, part, name),
        Fault::Registers(file) => numbers(4, file, 0, 0),
        Fault::Latency(kind) => numbers(5, kind, 0, 0),
        Fault::Alternatives(kind) => numbers(6, kind, 0, 0),
        Fault::Rows(kind, alternative) => numbers(7, kind, alternative, 0),
        Fault::NoUnit(kind, alternative, row) => numbers(8, kind, alternative, row),
        Fault::Offset(kind, alternative, row) => numbers(9, kind, alternative, row),
        Fault::RepeatedRow(kind, alternative, row) => numbers(10, kind, alternative, row),
        Fault::NoKind(operation) => numbers(11, operation, 0, 0),
        Fault::NoMaker(value) => numbers(12, value, 0, 0),
        Fault::Lands(value) => numbers(13, value, 0, 0),
        Fault::NoFile(value) => numbers(14, value, 0, 0),
        Fault::NoValue(read) => numbers(15, read, 0, 0),
        Fault::NoReader(read) => numbers(16, read, 0, 0),
        Fault::Distance(read) => numbers(17, read, 0, 0),
        Fault::ReadOffset(read) => numbers(18, read, 0, 0),
        Fault::ReadBackward(read) => numbers(19, read, 0, 0),
        Fault::NoFrom(order) => numbers(20, order, 0, 0),
        Fault::NoTo(order) => numbers(21, order, 0, 0),
        Fault::Delay(order) => numbers(22, order, 0, 0),
        Fault::OrderDistance(order) => numbers(23, order, 0, 0),
        Fault::OrderBackward(order) => numbers(24, order, 0, 0),
    }
}
