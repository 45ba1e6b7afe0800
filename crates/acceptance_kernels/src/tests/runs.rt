//! What kernels leave, by values that were worked by hand from what a kernel means.

use super::briefs::{BARE, Brief, BriefOperation, kernel_of};
use super::numbers::loop_of;
use kernel::Source::{Constant, Register};
use kernel_runs::{simulate, simulate_from};
use loops::{Memory, RunFault, opening};
use machine::Opcode::{Add, Load, Mov, Store};
use std::alloc::Global;
use std::process::Abort;
use worked_texts::SUM;

/// A kernel of one stage in which two loads share a register. The second lands in the register of the first before the addition reads it.
pub(super) const SHARING: Brief = Brief {
    ii: 4,
    registers: 4,
    arrays: &["a", "c", "b"],
    operations: &[
        ((0, 0, 1, 0), Load, Some(0), &[], Some((0, 0))),
        SHARED_LOAD,
        SHARED_SUM,
        SHARED_STORE,
    ],
    ..BARE
};

pub(super) const SHARED_LOAD: BriefOperation = ((1, 0, 1, 0), Load, Some(0), &[], Some((1, 0)));

pub(super) const SHARED_SUM: BriefOperation = (
    (2, 0, 1, 0),
    Add,
    Some(1),
    &[Register(0), Register(0)],
    None,
);

pub(super) const SHARED_STORE: BriefOperation = (
    (3, 0, 1, 0),
    Store,
    None,
    &[Register(1)],
    Some((2, 0)),
);

const CELLS: &str = "loop cells\narray b = 9 9\nstore b[i] 0\nend\n";

/// The first cell of the first array, in each iteration.
const CELL: Option<(u8, i16)> = Some((0, 0));

/// A kernel of one stage with one register and one array, at the interval 1. Its stores of three iterations are issued in the cycles 0, 1 and 2, the run's last, and land at 64, 65 and 66.
const LATE: Brief = Brief {
    arrays: &["b"],
    operations: &[((0, 0, 64, 0), Store, None, &[Constant(5)], CELL)],
    ..BARE
};

/// Both stores land at the start of cycle 2, the first issued in cycle 0 and the second in cycle 1.
const LATER_ISSUE: Brief = Brief {
    ii: 2,
    arrays: &["b"],
    operations: &[
        ((0, 0, 2, 0), Store, None, &[Constant(1)], CELL),
        ((1, 0, 1, 0), Store, None, &[Constant(2)], CELL),
    ],
    ..BARE
};

/// Both stores are issued in cycle 0 and land at the start of cycle 1.
const HIGHER_NUMBER: Brief = Brief {
    arrays: &["b"],
    operations: &[
        ((0, 0, 1, 0), Store, None, &[Constant(1)], CELL),
        ((0, 0, 1, 0), Store, None, &[Constant(2)], CELL),
    ],
    ..BARE
};

const GUARD: &str =
    "loop guard\narray a = 0 3\narray b = 9 9\nx = load a[i]\nstore b[i] 7 if x\nend\n";

/// A load, and a turn later a store that it guards. What is loaded in turn `k` under name 0 has name 1 in
/// turn `k + 1`, where iteration `k` is in stage 1.
///
/// Iteration 0 loads 0, and so stores nothing; iteration 1 loads 3, and so stores 7. The preload would let a
/// store of turn 0 write cell -1, but stage 1 isn't active then.
const GUARDED: Brief = Brief {
    stages: 2,
    registers: 2,
    arrays: &["a", "b"],
    operations: &[
        ((0, 0, 1, 0), Load, Some(0), &[], CELL),
        (
            (0, 1, 1, 0),
            Store,
            None,
            &[Constant(7), Register(1)],
            Some((1, -1)),
        ),
    ],
    preloads: &[(1, 1)],
    ..BARE
};

const COUNT: &str = "loop count\ninit x@1 = 10\nx = add x@1 1\nout x\nend\n";

/// A kernel that counts: it adds 1 to the value of the turn before, which then was name 0 and now is name 1.
///
/// With one stage the last of no turns would be turn -1, where name 0 is physical register 1, the preload. In
/// turn 0 name 0 is physical register 0 and in turn 1 it is physical register 1.
const COUNTING: Brief = Brief {
    registers: 2,
    operations: &[(
        (0, 0, 1, 0),
        Add,
        Some(0),
        &[Register(1), Constant(1)],
        None,
    )],
    preloads: &[(1, 10)],
    outs: &[("x", 0)],
    ..BARE
};

/// The kernel of `y = mov 7; x = add x@1 1; store b[i] x`, with `x@1` 5, in which the first `y` has the register of that initial value.
///
/// `y` lands in cycle 1 in the register that the initial value of `x` leaves only in cycle 3: so the sums begin from 7. The loop's own
/// are 6, 7 and 8.
const MOVED: Brief = Brief {
    ii: 2,
    stages: 3,
    registers: 8,
    arrays: &["b"],
    operations: &[
        ((0, 0, 1, 0), Mov, Some(1), &[Constant(7)], None),
        (
            (1, 1, 1, 0),
            Add,
            Some(1),
            &[Register(2), Constant(1)],
            None,
        ),
        ((1, 2, 1, 0), Store, None, &[Register(2)], Some((0, -2))),
    ],
    preloads: &[(1, 5)],
    ..BARE
};

/// The kernel of `x = mov 1; y = add 2 0`, with `x@1` 0 and `x` live at the end, in which the first `y` has the register of the last `x`.
///
/// The additions land after the last turn, the first of them in the register of the last `x`. The loop leaves 1.
const KEPT: Brief = Brief {
    registers: 2,
    operations: &[
        ((0, 0, 1, 0), Mov, Some(0), &[Constant(1)], None),
        (
            (0, 0, 3, 0),
            Add,
            Some(1),
            &[Constant(2), Constant(0)],
            None,
        ),
    ],
    preloads: &[(1, 0)],
    outs: &[("x", 0)],
    ..BARE
};

/// The cells of an array are these from cell 0 on, and the one before them is 0.
fn has_cells(row: &[i64], cells: &[i64]) -> bool {
    row.get(63) == Some(&0) && row.get(64..64 + cells.len().min(64)) == Some(cells)
}

/// A memory has arrays with these cells.
fn has_arrays(memory: &Memory, arrays: &[&[i64]]) -> bool {
    if memory.array_count() != arrays.len() {
        return false;
    }
    for array in 0..arrays.len() {
        if !has_cells(memory.cells(array), arrays[array]) {
            return false;
        }
    }
    true
}

/// A memory has these values that are live at the end.
fn has_outs(memory: &Memory, outs: &[i64]) -> bool {
    if memory.out_count() != outs.len() {
        return false;
    }
    for out in 0..outs.len() {
        if memory.out(out) != outs[out] {
            return false;
        }
    }
    true
}

/// A run: its kernel, the loop that opens its memory, for how many iterations, and what it leaves in the arrays and in the values that are live at the end.
type Run = (
    &'static Brief,
    &'static str,
    u64,
    &'static [&'static [i64]],
    &'static [i64],
);

const RUNS: &[Run] = &[
    // a shared register
    (
        &SHARING,
        SUM,
        2,
        &[&[1, 2, 0], &[10, 20, 0], &[20, 40, 0]],
        &[],
    ),
    // landing after the end
    (&LATE, CELLS, 3, &[&[5, 5, 5, 0]], &[]),
    // no landing
    (&LATE, CELLS, 0, &[&[9, 9, 0]], &[]),
    // the later issue lands last
    (&LATER_ISSUE, CELLS, 1, &[&[2, 9, 0]], &[]),
    // no issue
    (&LATER_ISSUE, CELLS, 0, &[&[9, 9, 0]], &[]),
    // the higher number lands last
    (&HIGHER_NUMBER, CELLS, 1, &[&[2, 9, 0]], &[]),
    // no number
    (&HIGHER_NUMBER, CELLS, 0, &[&[9, 9, 0]], &[]),
    // no guard
    (&GUARDED, GUARD, 0, &[&[0, 3, 0], &[9, 9, 0]], &[]),
    // a guard of 0
    (&GUARDED, GUARD, 1, &[&[0, 3, 0], &[9, 9, 0]], &[]),
    // a guard that is not 0
    (&GUARDED, GUARD, 2, &[&[0, 3, 0], &[9, 7, 0]], &[]),
    // the value of no turn
    (&COUNTING, COUNT, 0, &[], &[10]),
    // the value of a turn
    (&COUNTING, COUNT, 1, &[], &[11]),
    // the value of the last turn
    (&COUNTING, COUNT, 2, &[], &[12]),
    // initial values live from the first cycle
    (&MOVED, CELLS, 3, &[&[8, 9, 10]], &[]),
    // live values stay until the last landing
    (&KEPT, COUNT, 2, &[], &[2]),
];

/// A run leaves what it has to.
fn is_left(after: &Memory, run: &Run) -> bool {
    after.trip() == run.2 && has_arrays(after, run.3) && has_outs(after, run.4)
}

/// The memory before the first iteration of the loop of this text.
fn opened(rt: &impl Abort, alloc: Global, text: &str, trip: u64) -> Memory {
    let innermost = loop_of(rt, alloc, text);
    opening(alloc, &innermost, trip).expect(rt, "memory")
}

/// A run leaves what it has to, on a memory that is kept and on one that is given away.
fn is_met(rt: &impl Abort, alloc: Global, run: &Run) -> bool {
    let kernel = kernel_of(rt, alloc, run.0);
    let memory = opened(rt, alloc, run.1, run.2);
    let kept = simulate(alloc, &kernel, run.2, &memory).expect(rt, "a run");
    let given = simulate_from(alloc, &kernel, run.2, memory).expect(rt, "a run");
    is_left(&kept, run) && is_left(&given, run)
}

// (A function that names a table repeats its value in each step of its proof.)
fn runs_of_kernels() -> &'static [Run] {
    RUNS
}

#[test]
fn runs(rt: HostRuntime) {
    for run in runs_of_kernels() {
        assert!(rt; is_met(&rt, rt.alloc(), run), "{} for {}", run.1, run.2);
    }
}

const NO_OUT: &str = "loop none\ninit x@1 = 10\nx = add x@1 1\nend\n";

const ONE_ARRAY: &str = "loop more\narray a =\ninit x@1 = 10\nx = add x@1 1\nout x\nend\n";

/// For how many iterations the counting kernel is refused to run, on the memory that a loop has for one iteration: too many, another number, and where the memory has no live value, or an
/// array too many.
const REFUSED: &[(&str, u64, RunFault)] = &[
    (COUNT, 100_001, RunFault::Trip),
    (COUNT, 2, RunFault::Shape),
    (NO_OUT, 1, RunFault::Shape),
    (ONE_ARRAY, 1, RunFault::Shape),
];

#[test]
fn refuses_to_run(rt: HostRuntime) {
    let kernel = kernel_of(&rt, rt.alloc(), &COUNTING);
    for (text, trip, fault) in REFUSED {
        let memory = opened(&rt, rt.alloc(), text, 1);
        let kept = simulate(rt.alloc(), &kernel, *trip, &memory).err();
        let given = simulate_from(rt.alloc(), &kernel, *trip, memory).err();
        assert!(rt; kept == Some(*fault) && given == Some(*fault), "{text}");
    }
}
