//! The parts of a text, one for each loop: how they are shared among workers and joined.

pub(crate) mod jobs;
pub(crate) mod told;
