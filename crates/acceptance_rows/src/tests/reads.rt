//! Inputs that fail.

use super::given::{LINES, Line};
use modsched::{FaultyInput, FaultyOutput, Status, engine, parse_line};
use std::alloc::Global;
use std::process::Abort;
use std::thread::Threads;

/// How many bytes the output takes, in all and a write.
const ROOM: usize = 4096;

/// What is told as that can't be read.
fn unread_of(status: &Status) -> &'static str {
    match status {
        Status::MachineUnread => "machine",
        Status::LoopsUnread => "loops",
        Status::ProblemsUnread => "problems",
        Status::SolutionsUnread => "solutions",
        _ => "",
    }
}

/// The number that a line exits with where its inputs give a byte a read and fail after `first` and
/// `last` reads, and which input is told as unread. Its output is whole, or nothing is written.
fn read_to(
    rt: &(impl Abort + Threads + Sync),
    alloc: Global,
    line: &Line,
    first: Option<u64>,
    last: Option<u64>,
) -> (u8, &'static str) {
    let command = parse_line(alloc, line.words).expect(rt, "a command");
    let mut first = FaultyInput::new(line.first.as_bytes(), 1, first);
    let mut last = FaultyInput::new(line.last.as_bytes(), 1, last);
    let mut output = FaultyOutput::new(alloc, ROOM, ROOM, true).expect(rt, "an output");
    let status = engine(rt, alloc, &command, &mut first, &mut last, &mut output);
    let wanted = if status.number() == 0 { line.out } else { "" };
    assert!(rt; output.as_slice() == wanted.as_bytes(), "{wanted}");
    (status.number(), unread_of(&status))
}

// Each read of the first input fails in turn, from the first to the one that finds the end. One that is not read does not fail.
#[test]
fn fails_to_read_first(rt: HostRuntime) {
    for line in &LINES {
        let wanted = if line.unread_first.is_empty() {
            (0, "")
        } else {
            (3, line.unread_first)
        };
        for reads in 0..=line.first.len() as u64 {
            let came = read_to(&rt, rt.alloc(), line, Some(reads), None);
            assert_eq!(rt; came, wanted, "read {reads}");
        }
    }
}

// The first input is read first.
#[test]
fn fails_to_read_both(rt: HostRuntime) {
    for line in &LINES {
        let wanted = if line.unread_first.is_empty() {
            line.unread_last
        } else {
            line.unread_first
        };
        for reads in 0..=line.first.len() as u64 {
            let came = read_to(&rt, rt.alloc(), line, Some(reads), Some(0));
            assert_eq!(rt; came, (3, wanted), "read {reads}");
        }
    }
}

#[test]
fn fails_to_read_last(rt: HostRuntime) {
    for line in &LINES {
        for reads in 0..=line.last.len() as u64 {
            let came = read_to(&rt, rt.alloc(), line, None, Some(reads));
            assert_eq!(rt; came, (3, line.unread_last), "read {reads}");
        }
    }
}
