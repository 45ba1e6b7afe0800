//! The values of a problem: when they live, and their numbers.

pub(crate) mod files;
pub(crate) mod found;
pub(crate) mod lives;
pub(crate) mod numbers;
