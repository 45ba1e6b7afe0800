//! What a draft without a fault comes to.

mod edge_list;
pub(crate) mod scheduling;
pub(crate) mod tables;
