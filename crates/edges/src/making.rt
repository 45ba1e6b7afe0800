//! Graphs of edges that stand in any order.

pub(crate) mod given;
pub(crate) mod order;
