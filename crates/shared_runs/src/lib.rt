//! What `plain` and `run` print of loops, by several workers; no byte depends on how many there are.
//!
//! A worker makes the lines of one loop (`shared_jobs`). A loop that is more than half of a worker's share in `plain`
//! is run by one worker, and its lines are written by all, in eight pieces for each array (`Pool`, `lines_of_all`). The
//! kernel of a loop that is more than a worker's share in `run` is run in two halves (`push_told`). The second half
//! begins from a guess, the plain run's memory at that iteration, which `kernel_runs` compares later: so no clause says
//! that it is right. The calling thread first takes the memory of an array and gives it back (`part_memory`), so that
//! the C library gives each worker a part of the memory of its own.
#![tactic(auto)]

mod halves;
mod lines;
mod made;
mod pieces;
mod plain;
mod pool;
mod room;
mod runs;
mod work;

pub use plain::plain_text_on;
pub use runs::run_text_on;
