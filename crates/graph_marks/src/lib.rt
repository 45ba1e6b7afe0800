//! Marks of a schedule in graphs for Graphviz: where operations stand, and edges to later iterations.
//!
//! The graphs of loops and those of problems are marked alike.
#![tactic(auto)]

mod arrows;
mod labels;
mod nodes;

pub use arrows::push_arrow_end;
pub use labels::{push_failed_label, push_met_label, push_nodes_filled, push_nodes_plain};
pub use nodes::push_place;
