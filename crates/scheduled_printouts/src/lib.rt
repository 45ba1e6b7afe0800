//! What `dot --scheduled` prints of loops, where the calling thread does all work.
#![tactic(auto)]

mod graphs;
mod tries;

pub use graphs::{push_graph, scheduled_text};
