//! What is broken in solutions that are given.

pub(crate) mod broken;
pub(crate) mod check;
