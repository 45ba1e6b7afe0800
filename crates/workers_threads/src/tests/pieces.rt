//! Texts that workers read, and take in pieces to what is told of their loops.

use super::given::{MACHINE, SUM, named};
use candidates::{Listing, Settings, listing_text, write_row};
use loop_schedules::Prepared;
use loops::{Loop, LoopFault, LoopFaultKind, read_loops, write_loop};
use machine::{Machine, OutOfMemory, read_machine};
use std::alloc::Global;
use std::process::Abort;
use std::thread::Threads;
use workers::{FileFault, OpenGate, Told, pipeline_of, read_by_workers, tell_text};

/// Part of a comment, of 64 bytes.
const DOTS: &str = "................................................................";

/// A comment on one line, so long that with a loop it is a bit more than the least part of a text that is worth a worker that reads it, 32 KiB.
fn comment(rt: &impl Abort, alloc: Global) -> String {
    let dots = DOTS.repeat(alloc, 512).expect(rt, "memory");
    format!(in alloc; "#{dots}\n").expect(rt, "memory")
}

/// As many loops with these lines, each with a name of its own and a long comment before it.
fn far_apart(rt: &impl Abort, alloc: Global, lines: &str, times: usize) -> String {
    named(rt, alloc, comment(rt, alloc).as_str(), lines, times)
}

/// As many loops of a sum, and these lines after them.
fn sums(rt: &impl Abort, alloc: Global, times: usize, lines: &str) -> String {
    let mut text = far_apart(rt, alloc, SUM, times);
    text.push_str(lines).expect(rt, "memory");
    text
}

/// The canonical texts of loops.
fn written(rt: &impl Abort, alloc: Global, loops: &[Loop]) -> String {
    let mut text = String::new(alloc);
    for innermost in loops {
        let one = write_loop(alloc, innermost).expect(rt, "memory");
        text.push_str(one.as_str()).expect(rt, "memory");
    }
    text
}

/// The canonical texts of loops, or their fault.
fn shown(rt: &impl Abort, alloc: Global, read: Result<Vec<Loop>, LoopFault>) -> String {
    match read {
        Ok(loops) => written(rt, alloc, loops.as_slice()),
        Err(fault) => format!(in alloc; "{fault}").expect(rt, "memory"),
    }
}

/// As many workers read of the text what one thread reads.
fn is_read_alike<R: Threads + Abort + Sync>(rt: &R, alloc: Global, text: &[u8], workers: usize) {
    let wanted = shown(rt, alloc, read_loops(alloc, text));
    let came = shown(rt, alloc, read_by_workers(rt, alloc, text, workers));
    assert!(rt; came == wanted);
}

/// How many workers there are, and how many loops.
const WORKERS: &[usize] = &[0, 1, 2, 3, 5, 1000];

const SUMS: &[usize] = &[0, 1, 5];

/// However many workers read so many loops of a sum, the same comes out.
fn are_read_alike<R: Threads + Abort + Sync>(rt: &R, alloc: Global, times: usize) {
    let text = sums(rt, alloc, times, "");
    for workers in WORKERS {
        is_read_alike(rt, alloc, text.as_bytes(), *workers);
    }
}

#[test]
fn workers_read_what_one_thread_reads(rt: HostRuntime) {
    for times in SUMS {
        are_read_alike(&rt, rt.alloc(), *times);
    }
}

/// Three workers find this fault in three loops of a sum with these lines after them.
fn is_told<R: Threads + Abort + Sync>(rt: &R, alloc: Global, lines: &str, wanted: LoopFault) {
    let text = sums(rt, alloc, 3, lines);
    let read = read_by_workers(rt, alloc, text.as_bytes(), 3);
    assert!(rt; matches!(read, Err(fault) if fault == wanted));
}

// Where loops of two pieces have one name, the fault is that of the later one, with its line in the text.
const FAULTS: &[(&str, usize, LoopFaultKind)] = &[
    (
        "loop sum0\nt = add 1 2\nend\n",
        28,
        LoopFaultKind::RepeatedName,
    ),
    (
        "loop last\nt = add 1 u\nend\n",
        29,
        LoopFaultKind::UnknownName,
    ),
    ("loop last\nt = add 1 2\n", 30, LoopFaultKind::NoEnd),
];

#[test]
fn faults_are_told_with_their_lines(rt: HostRuntime) {
    for (lines, line, kind) in FAULTS {
        let (line, kind) = (*line, *kind);
        is_told(&rt, rt.alloc(), lines, LoopFault { line, kind });
    }
}

/// The text of the rows of a listing, which has one for each loop.
fn rows_text(alloc: Global, loops: usize, listing: &Listing) -> Result<String, OutOfMemory> {
    let mut text = String::new(alloc);
    for row in listing.rows() {
        write_row(&mut text, listing.ceiling(), row)?;
    }
    if loops != listing.rows().len() {
        text.clear();
    }
    Ok(text)
}

/// The listing of what a text gave, or its fault.
fn listed(
    rt: &impl Abort,
    alloc: Global,
    gave: Result<(Vec<Prepared>, Listing), FileFault>,
) -> String {
    match gave {
        Ok((_, listing)) => listing_text(alloc, &listing).expect(rt, "memory"),
        Err(fault) => format!(in alloc; "{fault}").expect(rt, "memory"),
    }
}

/// What one thread alone lists of a text, or its fault.
fn listed_alone<R: Threads + Abort + Sync>(
    rt: &R,
    alloc: Global,
    machine: &Machine,
    text: &[u8],
) -> String {
    let settings = Settings::new(6, 3, 1, 1).expect(rt, "settings");
    let gave = pipeline_of(rt, alloc, machine, text, &settings, &OpenGate);
    listed(rt, alloc, gave)
}

/// What as many workers tell of a text, with the rows of each part.
fn told_by<R: Threads + Abort + Sync>(
    rt: &R,
    alloc: Global,
    machine: &Machine,
    text: &[u8],
    workers: usize,
) -> Result<Told<String>, FileFault> {
    let settings = Settings::new(6, 3, workers, 1).expect(rt, "settings");
    let tell = |prepared: &[Prepared], listing: &Listing| -> Result<String, OutOfMemory> {
        rows_text(alloc, prepared.len(), listing)
    };
    tell_text(rt, alloc, machine, text, &settings, &tell)
}

/// These parts are the rows of the listing, before its last line.
fn begins(rt: &impl Abort, parts: &[String], wanted: &str) {
    let mut rest = wanted;
    for part in parts {
        rest = rest.strip_prefix(part.as_str()).expect(rt, "the next rows");
    }
    assert!(rt; rest.starts_with("loops "), "{rest}");
    assert_eq!(rt; rest.lines().count(), 1);
}

/// How many parts there are, and 0 where the whole is told. It comes to the listing or the fault that is wanted.
fn parts_in(
    rt: &impl Abort,
    alloc: Global,
    told: Result<Told<String>, FileFault>,
    wanted: &str,
) -> usize {
    let gave = match told {
        Ok(Told::Apart(parts)) => {
            begins(rt, parts.as_slice(), wanted);
            return parts.len();
        }
        Ok(Told::Whole(prepared, listing)) => Ok((prepared, listing)),
        Err(fault) => Err(fault),
    };
    let text = listed(rt, alloc, gave);
    assert_eq!(rt; text.as_str(), wanted);
    0
}

/// In how many parts workers tell of a text, and 0 where they do not. In any case nothing else comes out than by one thread alone.
fn parts_told<R: Threads + Abort + Sync>(
    rt: &R,
    alloc: Global,
    text: &[u8],
    workers: usize,
) -> usize {
    let machine = read_machine(alloc, MACHINE.as_bytes()).expect(rt, "a machine");
    let wanted = listed_alone(rt, alloc, &machine, text);
    let told = told_by(rt, alloc, &machine, text, workers);
    parts_in(rt, alloc, told, wanted.as_str())
}

/// So many loops of a sum, with these lines after them, are told by so many workers in so many parts.
fn is_taken<R: Threads + Abort + Sync>(
    rt: &R,
    alloc: Global,
    (times, lines): (usize, &str),
    workers: usize,
    parts: usize,
) {
    let text = sums(rt, alloc, times, lines);
    assert_eq!(rt; parts_told(rt, alloc, text.as_bytes(), workers), parts);
}

// 64 KiB are large, and each piece but the last ends with a loop. There are two pieces for each worker, or none.
const PARTS: &[(usize, usize, usize)] = &[
    (4, 2, 4),
    (5, 2, 5),
    (5, 64, 0),
    (5, 1, 0),
    (3, 4, 0),
    (1, 2, 0),
];

#[test]
fn a_large_text_is_taken_in_pieces(rt: HostRuntime) {
    for (times, workers, parts) in PARTS {
        is_taken(&rt, rt.alloc(), (*times, ""), *workers, *parts);
    }
}

// A piece at fault, loops of one name in two pieces, and an opcode without a table: each is told as by the calling thread.
const WHOLE: &[&str] = &[
    "loop last\nt = add 1 u\nend\n",
    "loop sum0\nt = add 1 2\nend\n",
    "loop last\nt = mul 1 2\nend\n",
    "loop last\n",
];

#[test]
fn a_large_text_at_fault_is_looked_at_as_a_whole(rt: HostRuntime) {
    for lines in WHOLE {
        is_taken(&rt, rt.alloc(), (4, lines), 2, 0);
    }
}

// Lines may end otherwise: then no line `end` is found, and there is one piece.
#[test]
fn a_text_without_a_place_is_one_piece(rt: HostRuntime) {
    let text = far_apart(&rt, rt.alloc(), "\nt = add 1 2\nend # of the loop\n", 4);
    assert_eq!(rt; parts_told(&rt, rt.alloc(), text.as_bytes(), 2), 0);
}
