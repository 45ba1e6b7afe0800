//! What runs in two halves leave, whatever is guessed of the state between them.

ghost use Rattle.std.specs.Prelude.{◌≤◌, ◌≤ℤ◌, ◌<ℤ◌, pos, neg_ℤ};

use super::briefs::{BARE, Brief, kernel_of};
use super::numbers::loop_of;
use kernel::Kernel;
use kernel::Source::{Constant, Register};
use kernel_runs::{Guess, simulate_from, simulate_in_halves};
use loops::{Loop, Memory, opening};
use machine::Opcode::{Add, Store};
use std::alloc::Global;
use std::process::Abort;
use std::thread::Threads;

const TRIP: u64 = 20000;

const COUNT: &str =
    "loop count\narray b = 9\ninit x@1 = 10\nx = add x@1 1\nstore b[i] x\nout x\nend\n";

/// A kernel that counts, and a turn later stores what it came to.
const COUNTING: Brief = Brief {
    stages: 2,
    registers: 4,
    arrays: &["b"],
    operations: &[
        (
            (0, 0, 1, 0),
            Add,
            Some(0),
            &[Register(1), Constant(1)],
            None,
        ),
        ((0, 1, 1, 0), Store, None, &[Register(1)], Some((0, -1))),
    ],
    preloads: &[(1, 10)],
    outs: &[("x", 1)],
    ..BARE
};

/// What the run holds after some iterations, with a number too many in the register.
fn guessed(alloc: Global, innermost: &Loop, from: u64, more: i64) -> Option<Guess>
    requires from { from ≤ 20000 }
    requires low { neg_ℤ (pos 1) ≤ℤ more }
    requires high { more ≤ℤ pos 1 }
{
    let mut memory = opening(alloc, innermost, TRIP).ok()?;
    if memory.array_count() != 1 || memory.trip() != TRIP {
        return None;
    }
    count_up(&mut memory, from);
    let mut initials = Vec::new(alloc);
    initials.push(10 + from as i64 + more).ok()?;
    Some(Guess { memory, initials })
}

/// Stores what the loop counts in its first iterations.
fn count_up(memory: &mut Memory, from: u64) {
    for cell in 0..from {
        if cell < memory.trip() && memory.array_count() > 0 {
            memory.set_cell(0, cell as i64, cell as i64 + 11);
        }
    }
}

/// Both memories have the same cells, and this value is live at the end.
fn is_same(one: &Memory, other: &Memory, out: i64) -> bool {
    one.array_count() == 1
        && other.array_count() == 1
        && one.cells(0) == other.cells(0)
        && one.out_count() == 1
        && one.out(0) == out
        && other.out_count() == 1
        && other.out(0) == out
}

/// A run in two halves leaves what the whole run does, where the second half begins with these guesses.
fn leaves_the_same<R: Abort + Threads + Sync, F: Fn(u64) -> Option<Guess> + Sync>(
    rt: &R,
    alloc: Global,
    kernel: &Kernel,
    innermost: &Loop,
    guess: &F,
) -> bool
    requires { F.IsAlwaysCallable guess.now }
{
    let before = opening(alloc, innermost, TRIP).expect(rt, "memory");
    let whole = simulate_from(alloc, kernel, TRIP, before).expect(rt, "a run");
    let again = opening(alloc, innermost, TRIP).expect(rt, "memory");
    let halves = simulate_in_halves(rt, alloc, kernel, TRIP, again, guess).expect(rt, "a run");
    is_same(&whole, &halves, 10 + TRIP as i64)
}

#[test]
fn halves_leave_what_the_whole_run_does(rt: HostRuntime) {
    let alloc = rt.alloc();
    let kernel = kernel_of(&rt, alloc, &COUNTING);
    let innermost = loop_of(&rt, alloc, COUNT);
    let given = &innermost;
    assert!(rt;
        leaves_the_same(
            &rt,
            alloc,
            &kernel,
            given,
            &|from| right(alloc, given, from)
        ),
        "a right guess"
    );
    assert!(rt;
        leaves_the_same(
            &rt,
            alloc,
            &kernel,
            given,
            &|from| wrong(alloc, given, from)
        ),
        "a wrong guess"
    );
    assert!(rt;
        leaves_the_same(&rt, alloc, &kernel, given, &|_| None),
        "no guess"
    );
}

/// A right guess.
fn right(alloc: Global, innermost: &Loop, from: u64) -> Option<Guess> {
    if from <= TRIP {
        guessed(alloc, innermost, from, 0)
    } else {
        None
    }
}

/// A guess with one too many in the register.
fn wrong(alloc: Global, innermost: &Loop, from: u64) -> Option<Guess> {
    if from <= TRIP {
        guessed(alloc, innermost, from, 1)
    } else {
        None
    }
}
