//! The graph of a loop for Graphviz with its schedule, or with the reason why it has none.
//!
//! `push_drawn` draws the schedule, or the cause if there is none. This crate attempts nothing: `scheduled_printouts`
//! tries the intervals of each loop, and says that each part of the text is the graph of the loop's choice
//! (`AreScheduledGraphs`).
#![tactic(auto)]

mod arrows;
mod drawn;
mod graphs;
mod heads;
mod nodes;

pub use drawn::push_drawn;
pub use graphs::{push_scheduled, push_unscheduled};
