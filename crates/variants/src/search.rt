//! How the intervals of a loop on a machine and on its variants are searched for.

pub(crate) mod intervals;
pub(crate) mod least;
pub(crate) mod tries;
pub(crate) mod varied;
