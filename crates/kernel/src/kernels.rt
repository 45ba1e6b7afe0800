//! Kernels as data, and what makes them well formed.

pub(crate) mod check;
pub(crate) mod lists;
pub(crate) mod operation;
pub(crate) mod parts;
pub(crate) mod rules;
