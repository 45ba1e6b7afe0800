//! Runs kernels cycle by cycle on a machine in which each write lands when its latency has passed.
//!
//! `simulate` leaves what the definition `overlapped` says, for every well-formed kernel, trip count up to 100,000 and
//! memory of the kernel's shape, unless memory runs out. The code has counters, a word of stage predicates, a base that
//! rotates the registers, and a ring of writes in flight; the definition has none of these.
//! `simulate_in_halves` runs both halves of a long run side by side. The second half begins from a guess: the memory
//! and the preloads after some iterations. It runs until nothing is left of its first registers. When the first half
//! comes to that turn, what both hold is compared. Where it differs, the calling thread runs the rest anew. So a wrong
//! guess costs time alone, and nothing need be proved of it.
#![tactic(auto)]

mod clock;
mod file;
mod flight;
mod halves;
mod issue;
mod kinds;
mod prepare;
mod ring;
mod run;
mod same;
mod seam;
mod simulation;
mod state;
mod step;
mod warm;

pub use halves::{Guess, simulate_in_halves};
pub use simulation::{simulate, simulate_from};
