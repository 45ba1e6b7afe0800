//! Edges between operations, each with how long one has to wait for another, and graphs of them.
//!
//! An edge has a delay in cycles and a distance in iterations. `given` makes a graph of edges that come in any order.
//! Nothing here knows of loops, so that schedules of any operations stand on this crate alone.
#![tactic(auto)]

mod edge;
mod layout;
mod making;

pub use edge::Edge;
pub use layout::graph::Edges;
pub use making::given::given;
pub use making::order::in_order;
