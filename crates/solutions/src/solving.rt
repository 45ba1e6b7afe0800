//! The least interval that has a solution.

pub(crate) mod outcome;
pub(crate) mod solve;
pub(crate) mod told;
pub(crate) mod trials;
pub(crate) mod tried;
