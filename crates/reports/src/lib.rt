//! What a worker found of the intervals of loops, in entries that are true by their type.
#![tactic(auto)]

mod entry;
mod report;

pub use entry::{Entry, Found};
pub use report::{Report, enter, go_dry, lose, report_of, reserve};
