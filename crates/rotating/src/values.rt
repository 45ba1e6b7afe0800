//! How long values live, and how many live at once.

pub(crate) mod crowd;
pub(crate) mod lifetime;
pub(crate) mod uses;
