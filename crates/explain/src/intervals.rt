//! The intervals that are tried, and why they fail.

pub(crate) mod reason_texts;
pub(crate) mod tries;
