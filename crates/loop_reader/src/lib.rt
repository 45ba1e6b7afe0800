//! Reads loop texts: the loops, or the first line at fault with its first fault.
//!
//! For all bytes, `read_loops` answers what the definition `loops_in` says, unless memory runs out. Texts come from
//! strangers, so no choice of names may make one slow. The names of a loop stand in chains by a hash, at most eight in
//! each, and those without room in a map by their order. So reading takes n log n steps at most for n bytes. The
//! slowest texts of 1 MiB that were found take less than four times the steps of an ordinary one. Users of the
//! libraries take the crate `loops`.
#![tactic(auto)]

mod build;
mod checks;
mod lines;
mod names;
mod read;

pub use checks::check::{is_long, is_readable, is_value, is_value_from};
pub use lines::collect::may_stand;
pub use names::index::Declared;
pub use read::read_loops;
pub use reader_faults::{LoopFault, LoopFaultKind};
