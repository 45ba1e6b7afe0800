//! What `schedule` and `bounds` print of two texts, where the calling thread does all work.
//!
//! The small programs and `capi` ask for that (`schedule_alone`, `bounds_alone`).
#![tactic(auto)]

mod alone;

pub use alone::{bounds_alone, schedule_alone};
