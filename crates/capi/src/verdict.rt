//! What callers in C are told of schedules that they give.

ghost use Rattle.std.specs.Prelude.{◌≡◌};
ghost use Rattle.capi.specs.Verdicts.{breach_verdict, broken_verdict, faulty_verdict, lawful_verdict, misfit_verdict, silence};

use crate::answer::{FaultNumbers, fault_answer, without_fault};
use problems::Fault;
use schedules::Breach;
use solutions::{Broken, Solution};

/// What a check tells, in numbers that count from 0. What does not belong to its status and kind is 0.
#[repr(C)]
#[derive(Clone, Copy)]
pub struct Verdict {
    /// What is broken first: 1 the interval, 2 the count of the numbers, 3 a number, 4 the count of the places, 5 a time, 6 an
    /// alternative, 7 a slot, 8 an edge, 9 a stage, 10 the registers. 0 for nothing.
    pub kind: u64,
    /// How many stages a lawful schedule has, 1 to 64.
    pub stages: u64,
    /// Of kinds 5, 6 and 9 the operation, and of kind 7 the one that takes the slot once more.
    pub operation: u64,
    /// Of kind 7 the operation that has the slot.
    pub earlier: u64,
    /// The unit of the slot.
    pub unit: u64,
    /// The residue of the slot at the interval, in cycles.
    pub residue: u64,
    /// The operation from which the edge goes.
    pub from: u64,
    /// The operation to which the edge goes.
    pub to: u64,
    /// The distance of the edge, in iterations.
    pub distance: u64,
    /// The delay of the edge, in cycles.
    pub delay: i64,
    /// By how many cycles the edge is missed, at least 1.
    pub early: u64,
    /// Of kind 3 the value, and of kind 10 the second one that stands in the register.
    pub value: u64,
    /// Of kind 10 the first value that stands in the register.
    pub other: u64,
    /// The register file.
    pub file: u64,
    /// The register.
    pub register: u64,
    /// The cycle in which both values live, from the beginning of iteration 0.
    pub cycle: u64,
    /// Which argument does not fit: 1 the times and the alternatives, which differ in number.
    pub misfit: u64,
    /// What is wrong with the problem.
    pub fault: FaultNumbers,
}

/// Nothing is told.
pub(crate) fn silence() -> Verdict
    ensures { result ≡ silence }
{
    Verdict {
        kind: 0,
        stages: 0,
        operation: 0,
        earlier: 0,
        unit: 0,
        residue: 0,
        from: 0,
        to: 0,
        distance: 0,
        delay: 0,
        early: 0,
        value: 0,
        other: 0,
        file: 0,
        register: 0,
        cycle: 0,
        misfit: 0,
        fault: without_fault(),
    }
}

/// The times and the alternatives differ in number.
pub(crate) fn misfit_verdict() -> Verdict
    ensures { result ≡ misfit_verdict }
{
    Verdict {
        misfit: 1,
        ..silence()
    }
}

/// The problem is at fault.
pub(crate) fn faulty_verdict(fault: Fault) -> Verdict
    ensures { result ≡ faulty_verdict fault }
{
    Verdict {
        fault: fault_answer(fault).fault,
        ..silence()
    }
}

/// The schedule is lawful.
pub(crate) fn lawful_verdict(solution: &Solution<'_>) -> Verdict
    ensures { result ≡ lawful_verdict solution.now }
{
    Verdict {
        stages: solution.stages(),
        ..silence()
    }
}

/// The schedule breaks this.
pub(crate) fn broken_verdict(broken: Broken) -> Verdict
    ensures { result ≡ broken_verdict broken }
{
    match broken {
        Broken::Interval => Verdict {
            kind: 1,
            ..silence()
        },
        Broken::Numbers => Verdict {
            kind: 2,
            ..silence()
        },
        Broken::Number(value) => Verdict {
            kind: 3,
            value: value as u64,
            ..silence()
        },
        Broken::Schedule(breach) => breach_verdict(breach),
        Broken::Registers {
            file,
            earlier,
            later,
            register,
            cycle,
        } => Verdict {
            kind: 10,
            value: later as u64,
            other: earlier as u64,
            file: file as u64,
            register: register as u64,
            cycle,
            ..silence()
        },
    }
}

/// The places break this.
fn breach_verdict(breach: Breach) -> Verdict
    ensures { result ≡ breach_verdict breach }
{
    match breach {
        Breach::Count => Verdict {
            kind: 4,
            ..silence()
        },
        Breach::Time(operation) => Verdict {
            kind: 5,
            operation: operation as u64,
            ..silence()
        },
        Breach::Alternative(operation) => Verdict {
            kind: 6,
            operation: operation as u64,
            ..silence()
        },
        Breach::Slot {
            earlier,
            later,
            unit,
            residue,
        } => Verdict {
            kind: 7,
            operation: later as u64,
            earlier: earlier as u64,
            unit: unit as u64,
            residue,
            ..silence()
        },
        Breach::Edge(edge, early) => Verdict {
            kind: 8,
            from: u64::from(edge.from),
            to: u64::from(edge.to),
            distance: u64::from(edge.distance),
            delay: i64::from(edge.delay),
            early,
            ..silence()
        },
        Breach::Stage(operation) => Verdict {
            kind: 9,
            operation: operation as u64,
            ..silence()
        },
    }
}
