//! Memories that are changed by their calls, runs that are refused, and the canonical text of loops.

ghost use Rattle.std.specs.Prelude.{◌+◌, ◌<◌, ◌≤ℤ◌, ◌<ℤ◌, pos, neg_ℤ, length};

use super::given::{
    ABS, ACC, ACCO, ALTS, CHAIN, EDGE, FAR, FORCE, HOLD, KEEP, LAST, LATE, LONE, POW, SHIFT, SUM,
    WRAP,
};
use loops::{
    Loop, Memory, RunFault, opening, read_loops, run_beginning, run_from, run_plain, write_loop,
};
use std::alloc::Global;
use std::process::Abort;
use std::test::Fail;

/// The last loop of a text.
fn one(alloc: Global, text: &str) -> Result<Loop, Fail> {
    let mut loops = read_loops(alloc, text.as_bytes())?;
    Ok(loops.pop().ok_or("a loop")?)
}

/// What a run of a loop for `trip` iterations is refused for.
fn refusal(alloc: Global, text: &str, trip: u64) -> Result<Option<RunFault>, Fail> {
    Ok(run_plain(alloc, &one(alloc, text)?, trip).err())
}

/// What a run of a loop on the memory of another one is refused for.
fn refusal_from(alloc: Global, text: &str, other: &str) -> Result<Option<RunFault>, Fail> {
    let memory = opening(alloc, &one(alloc, other)?, 3)?;
    Ok(run_from(alloc, &one(alloc, text)?, memory).err())
}

// `CHAIN` has one array, and `ACC` two.
#[test]
fn refuses_trips_and_shapes(rt: HostRuntime) -> Result<(), Fail> {
    assert_eq!(rt; refusal(rt.alloc(), ACC, 100_000)?, None);
    assert_eq!(rt; refusal(rt.alloc(), ACC, 100_001)?, Some(RunFault::Trip));
    assert_eq!(rt;
        refusal_from(rt.alloc(), ACC, CHAIN)?,
        Some(RunFault::Shape)
    );
    assert_eq!(rt; refusal_from(rt.alloc(), ACC, ACC)?, None);
    Ok(())
}

/// Sets a cell, which has to be there.
fn set_cell(rt: &impl Abort, memory: &mut Memory, array: usize, cell: i64, value: i64) {
    assert!(rt; array < memory.array_count());
    assert!(rt; -64 <= cell && cell < memory.trip() as i64 + 64);
    memory.set_cell(array, cell, value);
}

/// Sets the outermost cells of the sums and the live value.
fn change(rt: &impl Abort, memory: &mut Memory) {
    set_cell(rt, memory, 1, -64, 8);
    set_cell(rt, memory, 1, 66, -8);
    assert!(rt; memory.out_count() == 1);
    memory.set_out(0, -9);
}

/// The sums of three iterations, but for the outermost cells and the live value.
fn shows(rt: &impl Abort, memory: &Memory, first: i64, last: i64, out: i64) {
    assert_eq!(rt; memory.trip(), 3);
    assert_eq!(rt; memory.array_count(), 2);
    // (from cell -64 to cell 66)
    let cells = memory.cells(1);
    assert_eq!(rt; cells.first(), Some(&first));
    assert_eq!(rt; cells.get(63..68), Some(&[0, 1, 3, 6, 0][..]));
    assert_eq!(rt; cells.get(129..), Some(&[0, last][..]));
    assert_eq!(rt; memory.out_count(), 1);
    assert_eq!(rt; memory.out(0), out);
}

#[test]
fn sets_a_copy_alone(rt: HostRuntime) -> Result<(), Fail> {
    let memory = run_plain(rt.alloc(), &one(rt.alloc(), ACCO)?, 3)?;
    let mut copy = memory.copied(rt.alloc())?;
    shows(&rt, &copy, 0, 0, 6);
    change(&rt, &mut copy);
    shows(&rt, &copy, 8, -8, -9);
    shows(&rt, &memory, 0, 0, 6);
    Ok(())
}

// After two of three iterations the sums are 1 and 3, and the next one begins with 3.
#[test]
fn begins_runs(rt: HostRuntime) -> Result<(), Fail> {
    let innermost = one(rt.alloc(), ACCO)?;
    let memory = opening(rt.alloc(), &innermost, 3)?;
    let (memory, initials) = run_beginning(rt.alloc(), &innermost, memory, 2)?;
    shows_sums(&rt, &memory, 3, &[0, 1, 3, 0, 0]);
    assert_eq!(rt; initials.len(), 1);
    for init in &initials {
        assert_eq!(rt; (init.statement, init.number, init.value), (1, 1, 3));
    }
    assert!(rt; 2 + 1 <= memory.trip());
    let part = memory.window(rt.alloc(), 2, 1)?;
    shows_sums(&rt, &part, 1, &[3, 0, 0, 0, 0]);
    Ok(())
}

/// The cells of the sums from cell -1 to cell 3, in a memory for this many iterations.
fn shows_sums(rt: &impl Abort, memory: &Memory, trip: u64, sums: &[i64]) {
    assert_eq!(rt; memory.trip(), trip);
    assert_eq!(rt; memory.array_count(), 2);
    assert_eq!(rt; memory.cells(1).get(63..68), Some(sums));
}

/// The canonical text of the last loop of a text.
fn written(alloc: Global, text: &str) -> Result<String, Fail> {
    Ok(write_loop(alloc, &one(alloc, text)?)?)
}

#[test]
fn writes_canonical_text(rt: HostRuntime) -> Result<(), Fail> {
    let texts = [
        ABS, ACC, ACCO, ALTS, CHAIN, EDGE, FAR, FORCE, HOLD, KEEP, LAST, LATE, LONE, POW, SHIFT,
        SUM, WRAP,
    ];
    for text in texts {
        let written = written(rt.alloc(), text)?;
        assert_eq!(rt; written.as_str(), text);
    }
    Ok(())
}
