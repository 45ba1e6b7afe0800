//! The dependences of loops, line by line.

pub(crate) mod circuit;
pub(crate) mod dependences;
pub(crate) mod sums;
