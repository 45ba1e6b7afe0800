//! Gates of a caller.

ghost use Rattle.std.specs.Prelude.{true, false};

use std::process::Abort;
use std::sync::atomic::{AtomicBool, AtomicU64, Ordering};
use std::thread;
use workers::Gate;

/// How often a call looks for another, at most. Between two looks it lets other threads run, so that a busy machine has time to start
/// the second thread.
const TURNS: u64 = 10_000_000;

/// Holds its first call until a second one has come.
#[derive(Drop)]
struct Meeting {
    calls: AtomicU64,
    met: AtomicBool,
}

impl Meeting {
    /// No call yet.
    fn new() -> Meeting {
        Meeting {
            calls: AtomicU64::new(0),
            met: AtomicBool::new(false),
        }
    }

    /// A call.
    fn come(&self) {
        if self.calls.fetch_add(1, Ordering::SeqCst) > 0 {
            return;
        }
        for _ in 0..TURNS {
            if self.calls.load(Ordering::SeqCst) > 1 {
                self.met.store(true, Ordering::SeqCst);
                return;
            }
            thread::yield_now();
        }
    }
}

/// A gate that lets all workers together go on `most` times.
#[derive(Drop)]
pub(super) struct Limited {
    most: u64,
    asked: AtomicU64,
}

impl Limited {
    /// A gate for `most` times.
    pub(super) fn new(most: u64) -> Limited {
        Limited {
            most,
            asked: AtomicU64::new(0),
        }
    }
}

impl Gate for Limited {
    ghost always_goes_on = { λ _. false };

    fn at_piece(&self, _worker: usize, _piece: u64) {}

    fn go_on(&self, _worker: usize) -> bool {
        self.asked.fetch_add(1, Ordering::SeqCst) < self.most
    }
}

/// What a gate is called with in the name of one worker.
#[derive(Drop)]
struct Calls {
    /// How often the worker came to each of 12 pieces, in four bits each.
    pieces: AtomicU64,
    /// How often it asked whether it goes on.
    asked: AtomicU64,
}

impl Calls {
    /// No call yet.
    fn new() -> Calls {
        Calls {
            pieces: AtomicU64::new(0),
            asked: AtomicU64::new(0),
        }
    }
}

/// A gate that keeps apart what workers 0 and 1 call it with, and holds the first call at a piece until a second one has come.
#[derive(Drop)]
pub(super) struct Roll {
    meeting: Meeting,
    first: Calls,
    second: Calls,
    /// Calls in another worker's name, or with a piece past the twelfth.
    strange: AtomicU64,
}

impl Roll {
    /// No call yet.
    pub(super) fn new() -> Roll {
        Roll {
            meeting: Meeting::new(),
            first: Calls::new(),
            second: Calls::new(),
            strange: AtomicU64::new(0),
        }
    }

    /// What it is called with in a worker's name.
    fn calls(&self, worker: usize) -> Option<&Calls> {
        match worker {
            0 => Some(&self.first),
            1 => Some(&self.second),
            _ => None,
        }
    }

    /// How often workers 0 and 1 came to each piece, in four bits each.
    pub(super) fn pieces(&self) -> (u64, u64) {
        (
            self.first.pieces.load(Ordering::SeqCst),
            self.second.pieces.load(Ordering::SeqCst),
        )
    }

    /// How often they asked whether they go on.
    fn asked(&self) -> (u64, u64) {
        (
            self.first.asked.load(Ordering::SeqCst),
            self.second.asked.load(Ordering::SeqCst),
        )
    }

    /// How many calls were of no such worker or piece.
    fn strange(&self) -> u64 {
        self.strange.load(Ordering::SeqCst)
    }

    /// Whether the second call at a piece came while the first was held.
    fn met(&self) -> bool {
        self.meeting.met.load(Ordering::SeqCst)
    }
}

/// Two workers were at work at once. They called the gate by their own numbers, at each of these pieces once, and once more than that
/// before their draws.
pub(super) fn came(rt: &impl Abort, gate: &Roll, pieces: u64) {
    let (first, second) = gate.pieces();
    assert!(rt; gate.met());
    assert_eq!(rt; (first.wrapping_add(second), gate.strange()), (pieces, 0));
    let draws = (
        u64::from(first.count_ones()) + 1,
        u64::from(second.count_ones()) + 1,
    );
    assert_eq!(rt; gate.asked(), draws);
}

/// One time, in the four bits of a piece; none for a piece past the twelfth.
pub(super) fn once(piece: u64) -> u64 {
    if piece < 12 { 1 << (4 * piece) } else { 0 }
}

impl Gate for Roll {
    ghost always_goes_on = { λ _. true };

    fn at_piece(&self, worker: usize, piece: u64) {
        match self.calls(worker) {
            Some(calls) if piece < 12 => {
                calls.pieces.fetch_add(once(piece), Ordering::SeqCst);
            }
            _ => {
                self.strange.fetch_add(1, Ordering::SeqCst);
            }
        }
        self.meeting.come();
    }

    fn go_on(&self, worker: usize) -> bool {
        match self.calls(worker) {
            Some(calls) => {
                calls.asked.fetch_add(1, Ordering::SeqCst);
            }
            None => {
                self.strange.fetch_add(1, Ordering::SeqCst);
            }
        }
        true
    }
}
