//! When values live, how many live at once, and where they lie around the registers.

pub(crate) mod crowd;
pub(crate) mod lives;
pub(crate) mod turns;
