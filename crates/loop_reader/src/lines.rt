//! The lines of a block.

pub(crate) mod collect;
pub(crate) mod entry;
