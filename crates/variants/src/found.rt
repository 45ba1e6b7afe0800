//! What is found of loops.

pub(crate) mod each;
pub(crate) mod files;
pub(crate) mod finding;
