//! Lines that say why an interval is no shorter, the same for loops and for problems.
//!
//! These are the line of the fullest set of units that was looked at (`push_set_line`), a line for each run of
//! neighbouring intervals that fail and of which the same is told (`push_runs`), and the line `least possible`
//! (`push_least`). A law says that no lawful schedule has an interval below what the set or the recurrences need
//! (`LeastIsLeast`).
#![tactic(auto)]

mod laws;
mod least;
mod runs;
mod set_line;
mod unit_names;

pub use laws::least_is_least;
pub use least::{is_least_possible, push_least};
pub use runs::push_runs;
pub use set_line::push_set_line;
pub use unit_names::UnitNames;
