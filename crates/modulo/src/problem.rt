//! In which order operations are taken, and which of their alternatives are sound.

pub(crate) mod order;
pub(crate) mod sound;
