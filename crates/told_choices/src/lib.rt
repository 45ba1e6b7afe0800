//! The interval chosen for a loop with the evidence for it, and why each interval before it gives no kernel.
//!
//! Each interval from MII on is tried once (`ToldTrials`), and the evidence of each attempt is kept: the reason where
//! there is no kernel (`Why`), else the kernel with its schedule and registers (`IsTold`). So what tells of a loop
//! makes no attempt of its own. To find how many registers a schedule needs takes several allotments. So of the
//! intervals that fail for registers, only the first and the last tell it.
#![tactic(auto)]

mod chosen;
mod failures;
mod hold;
mod least;
mod told;
mod why;

pub use chosen::Chosen;
pub use hold::{Hold, hold_of};
pub use least::is_least_possible;
pub use told::{Told, choose_told};
pub use why::Why;
