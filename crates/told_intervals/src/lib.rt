//! Tries an interval of a loop and hands out the evidence: schedule and registers, or what it fails by.
//!
//! `ToldTrials::try_told` tries what `Trials` of `candidates` tries, with the same budget, and tells what
//! `try_interval` gives (`tried_is_given`). A listing needs no evidence. So this crate stands apart from `candidates`,
//! and the small programs do without it.
#![tactic(auto)]

mod evidence;
mod laws;
mod trials;

pub use evidence::{Met, Reason, Tried};
pub use laws::tried_is_given;
pub use trials::ToldTrials;
