//! Numbers of registers that are given for schedules that are given, and the figures of schedules.

ghost use Rattle.rotating.specs.Allotments.{Suits};

use figures::figures_of;
use kernel::kernel_text;
use loop_schedules::{Prepared, Schedule};
use loops::{Loop, read_loops};
use machine::read_machine;
use rotating::{Allotment, emit, first_without_number};
use std::alloc::Global;
use std::process::Abort;
use worked_texts::{ACC, M1};

/// Units for everything.
const APART: &str = r#"
registers = 8
units = ["mem", "alu", "move"]
ops.store = { latency = 1, alts = [["mem@0"]] }
ops.mov = { latency = 1, alts = [["move@0"]] }
ops.add = { latency = 1, alts = [["alu@0"]] }
"#;

/// Units for everything, and additions of three cycles.
const SLOW: &str = r#"
registers = 8
units = ["alu", "move"]
ops.mov = { latency = 1, alts = [["move@0"]] }
ops.add = { latency = 3, alts = [["alu@0"]] }
"#;

const MOVED: &str =
    "loop moved\narray b =\ninit x@1 = 5\ny = mov 7\nx = add x@1 1\nstore b[i] x\nend\n";

const KEPT: &str = "loop kept\ninit x@1 = 0\nx = mov 1\ny = add 2 0\nout x\nend\n";

/// How long an iteration takes, the slack of each operation, and how many registers the values need.
#[derive(Clone, Copy)]
struct Wanted {
    cycles: u64,
    slacks: &'static [u64],
    need: u64,
}

/// The time and alternative of each operation.
type Places = &'static [(u64, usize)];

/// A loop on a machine, with a schedule: an interval and places, its figures where they were worked out, and the number of each value's register.
#[derive(Clone, Copy)]
struct Case {
    name: &'static str,
    machine: &'static str,
    text: &'static str,
    ii: u16,
    places: Places,
    figures: Option<Wanted>,
    registers: u8,
    numbers: &'static [usize],
    /// The text of the kernel, or nothing where the numbers are not lawful.
    wanted: &'static str,
}

/// The last loop of a text.
pub(super) fn loop_of(rt: &impl Abort, alloc: Global, text: &str) -> Loop {
    let mut loops = read_loops(alloc, text.as_bytes()).expect(rt, "a text of loops");
    loops.pop().expect(rt, "a loop")
}

/// The loop of a case, prepared for its machine.
fn prepared(rt: &impl Abort, alloc: Global, case: &Case) -> Prepared {
    let machine = read_machine(alloc, case.machine.as_bytes()).expect(rt, "a machine");
    let innermost = loop_of(rt, alloc, case.text);
    let prepared = Prepared::new(alloc, &machine, innermost, 6, 32);
    prepared.expect(rt, "a machine with all opcodes")
}

/// The schedule of a case.
fn scheduled<'a>(
    rt: &impl Abort,
    alloc: Global,
    prepared: &'a Prepared,
    case: &Case,
) -> Schedule<'a> {
    let ii = u64::from(case.ii).clamp(1, 16384);
    let found = Schedule::check(alloc, prepared, ii, case.places).expect(rt, "memory");
    found.expect(rt, "a schedule")
}

/// The kernel of an allotment has this text.
fn has_text(
    rt: &impl Abort,
    alloc: Global,
    schedule: &Schedule,
    allotment: &Allotment,
    wanted: &str,
) -> bool
    requires { Suits schedule.now allotment.now }
{
    let innermost = schedule.prepared().innermost();
    let kernel = emit(alloc, innermost, schedule, allotment).expect(rt, "memory");
    let text = kernel_text(alloc, &kernel).expect(rt, "memory");
    text.as_str() == wanted
}

/// The numbers of a case come to what is wanted for its schedule.
fn is_numbered(rt: &impl Abort, alloc: Global, schedule: &Schedule, case: &Case) -> bool {
    let registers = u64::from(case.registers).max(1);
    let numbers = Vec::from_slice(alloc, case.numbers).expect(rt, "memory");
    match Allotment::check(schedule, registers, numbers) {
        Ok(allotment) => has_text(rt, alloc, schedule, &allotment, case.wanted),
        Err(_numbers) => case.wanted.is_empty(),
    }
}

/// A schedule has the figures that are wanted.
fn has_figures(rt: &impl Abort, alloc: Global, schedule: &Schedule, wanted: &Wanted) -> bool {
    let figures = figures_of(alloc, schedule).expect(rt, "memory");
    figures.cycles == wanted.cycles
        && figures.slacks.as_slice() == wanted.slacks
        && figures.need == Some(wanted.need)
}

/// A schedule comes to what is wanted of a case.
fn comes_to(rt: &impl Abort, alloc: Global, schedule: &Schedule, case: &Case) -> bool {
    let is_figured = match &case.figures {
        Some(wanted) => has_figures(rt, alloc, schedule, wanted),
        None => true,
    };
    is_figured && is_numbered(rt, alloc, schedule, case)
}

/// A case comes to what is wanted.
fn is_met(rt: &impl Abort, alloc: Global, case: &Case) -> bool {
    let prepared = prepared(rt, alloc, case);
    let schedule = scheduled(rt, alloc, &prepared, case);
    comes_to(rt, alloc, &schedule, case)
}

/// The running sum at the interval 2.
const SUMMING: Case = Case {
    name: "the running sum",
    machine: M1,
    text: ACC,
    ii: 2,
    places: &[(0, 0), (3, 0), (5, 0)],
    figures: Some(Wanted {
        cycles: 6,
        slacks: &[0, 1, 0],
        need: 3,
    }),
    registers: 8,
    numbers: &[0, 1],
    wanted: "pre r2 0\n0: load r0 a[k+0] ?0\n1: add r2 r3 r1 ?1 | store b[k-2] r3 ?2\n",
};

/// The sum; numbers that are not the least ones, both values in one register, and a store that is issued two cycles later, which the sum can wait for three cycles, and which keeps one
/// value more alive. Then numbers that would be lawful if no initial value lived from the first cycle on, and if no live value stayed until the last landing; of the last schedule's two
/// operations nothing waits but the end of the iteration.
const CASES: &[Case] = &[
    SUMMING,
    Case {
        name: "other numbers",
        numbers: &[2, 3],
        wanted: "pre r4 0\n0: load r2 a[k+0] ?0\n1: add r4 r5 r3 ?1 | store b[k-2] r5 ?2\n",
        ..SUMMING
    },
    Case {
        name: "one register",
        numbers: &[0, 0],
        wanted: "",
        ..SUMMING
    },
    Case {
        name: "a later store",
        places: &[(0, 0), (3, 0), (7, 0)],
        figures: Some(Wanted {
            cycles: 8,
            slacks: &[0, 3, 0],
            need: 4,
        }),
        wanted: "pre r2 0\n0: load r0 a[k+0] ?0\n1: add r2 r3 r1 ?1 | store b[k-3] r4 ?3\n",
        ..SUMMING
    },
    Case {
        name: "an initial value",
        machine: APART,
        text: MOVED,
        figures: None,
        numbers: &[1, 0],
        wanted: "",
        ..SUMMING
    },
    Case {
        name: "a live value",
        machine: SLOW,
        text: KEPT,
        ii: 1,
        places: &[(0, 0), (0, 0)],
        figures: Some(Wanted {
            cycles: 3,
            slacks: &[2, 0],
            need: 4,
        }),
        registers: 2,
        numbers: &[0, 1],
        wanted: "",
    },
];

fn cases() -> &'static [Case] {
    CASES
}

#[test]
fn schedules_that_are_given(rt: HostRuntime) {
    for case in cases() {
        assert!(rt; is_met(&rt, rt.alloc(), case), "{}", case.name);
    }
}

/// The first value of the running sum that has no number among so many registers, by its operation.
fn lacking(rt: &impl Abort, alloc: Global, registers: u8) -> Option<u8> {
    let prepared = prepared(rt, alloc, &SUMMING);
    let schedule = scheduled(rt, alloc, &prepared, &SUMMING);
    let registers = u64::from(registers).max(1);
    let found = first_without_number(alloc, &schedule, registers).expect(rt, "memory");
    found.map(|life| life.operation)
}

/// Two instances of the sum live in each cycle, and the loaded value in one.
#[test]
fn values_without_a_number(rt: HostRuntime) {
    assert_eq!(rt; lacking(&rt, rt.alloc(), 1), Some(1));
    assert_eq!(rt; lacking(&rt, rt.alloc(), 2), Some(1));
    assert_eq!(rt; lacking(&rt, rt.alloc(), 3), None);
}
