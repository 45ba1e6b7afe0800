//! What ResMII counts: the alternative that each operation takes in it, and the lines of units.
//!
//! `unit_choices` gives that alternative for each operation of a loop, and `unit_choices_of` for operations given by
//! alternatives. The definition orders operations by their freedom, and asks that each choice be the best one after
//! those before it. `push_unit_lines` writes a line for each unit that is used. A law says that the N of a unit marked
//! `full` is ResMII.
#![tactic(auto)]

mod choices;
mod laws;
mod tally;
mod unit_lines;

pub use choices::{unit_choices, unit_choices_of};
pub use laws::fullest_use_is_bound;
pub use unit_lines::{push_unit_lines, rows_by};
