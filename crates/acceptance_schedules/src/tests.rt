//! The worked loops at their intervals, over each table, and lists that are schedules or are not.

mod tables;

ghost use Rattle.std.specs.Prelude.{◌≤◌};
ghost use Rattle.loop_schedules.specs.Problems.{mii_of};

use ims::{Failure, Try, attempt};
use loop_schedules::{Prepared, Schedule};
use loops::{Loop, read_loops};
use machine::read_machine;
use mrt::{MaskTable, ModuloTable, OwnerTable, TimelineTable};
use std::alloc::Global;
use std::process::Abort;
use worked_texts::{
    ACC, ALTS, CHAIN, FAR, FORCE, HOLD, KEEP, LATE, LONE, M1, M2, M3, M4, M5, M6, M7, M8, POW,
    SHIFT,
};

/// The last loop of a text.
fn loop_of(rt: &impl Abort, alloc: Global, text: &str) -> Loop {
    let mut loops = read_loops(alloc, text.as_bytes()).expect(rt, "a text of loops");
    loops.pop().expect(rt, "a loop")
}

/// The loop of a text, prepared for the machine of a text.
fn prepare(rt: &impl Abort, alloc: Global, machine: &str, text: &str) -> Prepared {
    let machine = read_machine(alloc, machine.as_bytes()).expect(rt, "a machine");
    let innermost = loop_of(rt, alloc, text);
    let prepared = Prepared::new(alloc, &machine, innermost, 6, 32);
    prepared.expect(rt, "a machine with all opcodes")
}

/// The time and alternative of each operation, or why there are none.
type Places<'a> = Result<&'a [(u64, usize)], Failure>;

/// A schedule has these times and alternatives.
fn has_places(schedule: &Schedule<'_>, places: &[(u64, usize)]) -> bool {
    if places.len() != schedule.prepared().operations() {
        return false;
    }
    for op in 0..places.len() {
        if places[op] != (schedule.time(op), schedule.alternative(op)) {
            return false;
        }
    }
    true
}

/// An attempt comes to this.
fn comes_to(found: &Try<'_>, wanted: Places<'_>) -> bool {
    match (found, wanted) {
        (Try::Placed(schedule), Ok(places)) => has_places(schedule, places),
        (Try::Failed(failure), Err(wanted)) => *failure == wanted,
        _ => false,
    }
}

/// An attempt over a table comes to this.
fn finds<T: ModuloTable>(
    rt: &impl Abort,
    alloc: Global,
    prepared: &Prepared,
    ii: u64,
    budget: u64,
    wanted: Places<'_>,
) -> bool
    requires from_mii { mii_of prepared.now ≤ ii }
    requires limit { ii ≤ 16384 }
    requires budget { budget ≤ 8192 }
{
    let found = attempt::<T>(alloc, prepared, ii, budget).expect(rt, "memory");
    comes_to(&found, wanted)
}

/// Over each table an attempt comes to this, at an interval from the least one on.
fn is_found(
    rt: &impl Abort,
    alloc: Global,
    prepared: &Prepared,
    ii: u64,
    budget: u64,
    wanted: Places<'_>,
) {
    assert!(rt; prepared.mii() <= ii && ii <= 64 && budget <= 24);
    assert!(rt;
        finds::<OwnerTable>(rt, alloc, prepared, ii, budget, wanted),
        "at {ii}"
    );
    assert!(rt;
        finds::<MaskTable>(rt, alloc, prepared, ii, budget, wanted),
        "at {ii}"
    );
    assert!(rt;
        finds::<TimelineTable>(rt, alloc, prepared, ii, budget, wanted),
        "at {ii}"
    );
}

/// Loops on machines, intervals and budgets, and what an attempt comes to.
const ROWS: &[(&str, &str, u64, u64, Places<'static>)] = &[
    (M1, ACC, 2, 18, Ok(&[(0, 0), (3, 0), (5, 0)])),
    (M1, ACC, 3, 18, Ok(&[(0, 0), (3, 0), (4, 0)])),
    (M1, ACC, 4, 18, Ok(&[(0, 0), (3, 0), (5, 0)])),
    (M1, CHAIN, 5, 18, Ok(&[(0, 0), (3, 0), (4, 0)])),
    (M1, SHIFT, 2, 12, Ok(&[(0, 0), (3, 0)])),
    (M2, FORCE, 4, 5, Ok(&[(3, 0), (6, 0), (0, 0)])),
    (M2, FORCE, 5, 3, Ok(&[(0, 0), (2, 0), (3, 0)])),
    (M3, LONE, 3, 6, Ok(&[(0, 0)])),
    (M4, LATE, 2, 18, Ok(&[(1, 0), (2, 0), (0, 0)])),
    (M5, POW, 3, 12, Ok(&[(0, 0), (5, 0)])),
    (M6, ALTS, 2, 18, Ok(&[(0, 1), (1, 0), (2, 0)])),
    (M7, FAR, 2, 12, Ok(&[(0, 0), (64, 1)])),
    (M8, KEEP, 2, 18, Ok(&[(0, 0), (3, 0), (5, 0)])),
    (M8, HOLD, 6, 24, Ok(&[(0, 0), (3, 0), (4, 0), (5, 0)])),
    (M2, FORCE, 4, 4, Err(Failure::Budget)),
    (M3, LONE, 2, 6, Err(Failure::Table)),
    (M7, FAR, 1, 12, Err(Failure::Stages)),
    (M8, HOLD, 5, 24, Err(Failure::Budget)),
];

#[test]
fn rows(rt: HostRuntime) {
    for (machine, text, ii, budget, wanted) in ROWS {
        let prepared = prepare(&rt, rt.alloc(), machine, text);
        is_found(&rt, rt.alloc(), &prepared, *ii, *budget, *wanted);
    }
}

/// How many stages the schedule has that a list gives for a prepared loop at the interval 2.
fn stages_of(
    rt: &impl Abort,
    alloc: Global,
    prepared: &Prepared,
    places: &[(u64, usize)],
) -> Option<u64> {
    let schedule = Schedule::check(alloc, prepared, 2, places).expect(rt, "memory");
    schedule.map(|schedule| schedule.stages())
}

/// Lists for the running sum: one that keeps edges and units; the memory unit twice in a row, a sum that is issued a cycle too early,
/// no time at all, and one past all stages.
const LISTS: &[(&[(u64, usize)], Option<u64>)] = &[
    (&[(0, 0), (3, 0), (7, 0)], Some(4)),
    (&[(0, 0), (3, 0), (4, 0)], None),
    (&[(0, 0), (2, 0), (5, 0)], None),
    (&[], None),
    (&[(0, 0), (3, 0), (u64::MAX, 0)], None),
];

#[test]
fn takes_and_refuses_lists(rt: HostRuntime) {
    let prepared = prepare(&rt, rt.alloc(), M1, ACC);
    for (places, wanted) in LISTS {
        assert!(rt;
            stages_of(&rt, rt.alloc(), &prepared, places) == *wanted,
            "{places:?}"
        );
    }
}
