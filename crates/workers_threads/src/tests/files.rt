//! Files by workers in threads.

use super::gates::{Limited, Roll, came};
use super::given::{LISTING, LOOPS, MACHINE, SUM, SUM_LISTED, named};
use candidates::{Settings, listing_text};
use std::alloc::Global;
use std::process::Abort;
use std::thread::Threads;
use workers::{Gate, OpenGate, pipeline_file};

/// The loops have this listing, with a ceiling of 3.
fn are_listed<R: Threads + Abort + Sync, G: Gate + Sync>(
    rt: &R,
    alloc: Global,
    (loops, wanted): (&str, &str),
    workers: usize,
    cut: u64,
    gate: &G,
) {
    let settings = Settings::new(6, 3, workers, cut).expect(rt, "settings");
    let listing = pipeline_file(
        rt,
        alloc,
        MACHINE.as_bytes(),
        loops.as_bytes(),
        &settings,
        gate,
    )
    .expect(rt, "a listing");
    let text = listing_text(alloc, &listing).expect(rt, "memory");
    assert_eq!(rt; text.as_str(), wanted);
}

/// The cut of two workers, and their pieces: there are 12 intervals, and a piece has as many as the cut.
const CUTS: &[(u64, u64)] = &[(1, 0x1111_1111_1111), (2, 0x11_1111)];

#[test]
fn two_workers_are_at_work_at_once(rt: HostRuntime) {
    for (cut, pieces) in CUTS {
        let gate = Roll::new();
        are_listed(&rt, rt.alloc(), (LOOPS, LISTING), 2, *cut, &gate);
        came(&rt, &gate, *pieces);
    }
}

/// After how many pieces workers stop.
const STOPS: &[u64] = &[0, 1, 7];

// The calling thread does what the workers leave.
#[test]
fn workers_that_stop_change_no_listing(rt: HostRuntime) {
    for most in STOPS {
        let gate = Limited::new(*most);
        are_listed(&rt, rt.alloc(), (LOOPS, LISTING), 3, 1, &gate);
    }
}

/// The listing of 900 sums.
fn many_listed(rt: &impl Abort, alloc: Global) -> String {
    let mut text = named(rt, alloc, "", SUM_LISTED, 900);
    text.push_str("loops 900 met 900 failed 0\n")
        .expect(rt, "memory");
    text
}

// 900 loops of 3 statements are enough work that two workers prepare them.
#[test]
fn many_loops_are_listed_in_order(rt: HostRuntime) {
    let loops = named(&rt, rt.alloc(), "", SUM, 900);
    let wanted = many_listed(&rt, rt.alloc());
    let texts = (loops.as_str(), wanted.as_str());
    are_listed(&rt, rt.alloc(), texts, 1, 2, &OpenGate);
    are_listed(&rt, rt.alloc(), texts, 2, 2, &OpenGate);
}
