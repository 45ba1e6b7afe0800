//! Loops as data.

pub(crate) mod innermost;
pub(crate) mod lists;
pub(crate) mod statement;
