//! The names of a block.

pub(crate) mod chains;
pub(crate) mod found;
pub(crate) mod index;
pub(crate) mod known;
