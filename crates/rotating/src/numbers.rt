//! Registers for values.

pub(crate) mod allotment;
pub(crate) mod need;
