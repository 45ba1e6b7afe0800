//! What `run` and `plain` print of texts, where the calling thread does all work.
//!
//! The small programs and `capi` ask for that (`run_alone`, `plain_alone`).
#![tactic(auto)]

mod alone;

pub use alone::{plain_alone, run_alone};
