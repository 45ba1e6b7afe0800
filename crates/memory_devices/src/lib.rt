//! Inputs and outputs in memory, some of which fail, for tests and for callers of `modsched`.
//!
//! Contracts tell all of their bytes, and when those fail that do (`FaultyReads`, `FaultyWrites`, `FaultyFlushes`).
#![tactic(auto)]

mod faulty;
mod memory;

pub use faulty::{FaultyInput, FaultyOutput};
pub use memory::{Bytes, TakenBytes};
