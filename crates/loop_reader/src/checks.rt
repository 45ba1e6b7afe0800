//! The faults of a block.

pub(crate) mod check;
pub(crate) mod given;
