//! A schedule as lines: its figures, when operations are issued, when values live, and its table as a grid.
#![tactic(auto)]

mod figure_lines;
mod grids;
mod operations;
mod schedule;
mod slots;
mod values;

pub use figure_lines::push_need;
pub use schedule::push_schedule;
