//! Edges, laid out for a scheduler.

pub(crate) mod graph;
pub(crate) mod groups;
pub(crate) mod starts;
