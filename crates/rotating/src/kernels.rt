//! The kernel of a scheduled loop.

pub(crate) mod emission;
pub(crate) mod lists;
pub(crate) mod naming;
pub(crate) mod operations;
pub(crate) mod preloads;
