//! The listing of a file, by a worker.

ghost use Rattle.std.specs.Prelude.{true};

use crate::answers::{Answer, tell};
use crate::given::LISTING;
use candidates::{Listing, Settings, listing_text};
use std::alloc::Global;
use std::io;
use std::sync::atomic::{AtomicU64, Ordering};
use std::thread::Threads;
use worked_texts::{THREE, TWO_REGISTERS};
use workers::{FileFault, Gate, pipeline_file};

/// A gate that counts the pieces to which workers came.
#[derive(Drop)]
struct Counted {
    pieces: AtomicU64,
}

impl Gate for Counted {
    ghost always_goes_on = { λ _. true };

    fn at_piece(&self, _worker: usize, _piece: u64) {
        self.pieces.fetch_add(1, Ordering::SeqCst);
    }
}

/// Tells what the listing of a file comes to.
pub fn try_file(rt: &(impl AllocGlobal + Print + Threads + Sync)) -> io::Result<()> {
    let Ok(settings) = Settings::new(6, 3, 2, 1) else {
        return tell(rt, "pipeline_file", Answer::Wrong, Answer::Wrong);
    };
    let first = listed(rt, rt.alloc(), &settings);
    tell(
        rt,
        "pipeline_file",
        first,
        listed(rt, rt.alloc(), &settings),
    )
}

/// The listing of the three loops by two workers, who come to 12 pieces together where they are started.
fn listed<R: Threads + Sync>(rt: &R, alloc: Global, settings: &Settings) -> Answer {
    let gate = Counted {
        pieces: AtomicU64::new(0),
    };
    let (machine, loops) = (TWO_REGISTERS.as_bytes(), THREE.as_bytes());
    match pipeline_file(rt, alloc, machine, loops, settings, &gate) {
        Ok(listing) => written(alloc, &listing, gate.pieces.load(Ordering::SeqCst)),
        Err(FileFault::Memory) => Answer::Refused,
        Err(_) => Answer::Wrong,
    }
}

/// What a listing is, where workers came to `pieces` pieces.
fn written(alloc: Global, listing: &Listing, pieces: u64) -> Answer {
    let Ok(text) = listing_text(alloc, listing) else {
        return Answer::Refused;
    };
    match pieces {
        12 => Answer::right_if(text.as_str() == LISTING),
        0 if text.as_str() == LISTING => Answer::Alone,
        _ => Answer::Wrong,
    }
}
