//! The lines of runs: what `plain` prints of loops, and `run` of the kernels of a listing.
//!
//! They are a function of the loop and of the memory that a run leaves, however it was run. So both commands print by
//! the same code. Of a kernel it is known that it has as many arrays and live values as its loop (`AreRunnable`). No
//! more is needed, and so this crate is proved beside those that find kernels.
#![tactic(auto)]

mod cells;
mod laws;
mod plain;
mod running;
mod runs;

pub use laws::kernels_tell_plain_lines;
pub use plain::{plain_text, push_plain};
pub use running::{push_choice, push_runs, run_printout};
pub use runs::{push_head, push_outs, push_run, push_stretch, within_limits};
