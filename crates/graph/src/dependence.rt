//! Dependences, and how those of a loop are found.

pub(crate) mod collect;
pub(crate) mod dependences;
