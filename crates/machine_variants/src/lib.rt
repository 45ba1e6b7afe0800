//! Variants of a machine: a unit twice, a latency that is one cycle less, or another number of registers.
//!
//! `varied` says which machine a variant is, `variants_of` which variants there are, and `concerns` which of them
//! concern a loop. To prepare a loop is to give it away, so this crate also makes copies of loops (`copied_loop`).
#![tactic(auto)]

mod copies;
mod doubling;
mod opcodes;
mod shortening;
mod variant;

pub use copies::copied_loop;
pub use doubling::doubled;
pub use opcodes::latency_of;
pub use shortening::shortened;
pub use variant::{Variant, concerns, variants_of};
