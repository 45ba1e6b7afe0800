//! What a problem comes to, as text: its solution or why it has none, with notes on its bounds.
//!
//! The notes tell a circuit that RecMII is due to (`IsCircuitOf`), and the units that ResMII is due to (`AreFullest`).
#![tactic(auto)]

mod circuit;
mod listed;
mod notes;
mod outcome;
mod units;

pub use circuit::circuit_of;
pub use outcome::{is_met, push_outcome};
pub use units::{fullest_of, rows_at, rows_with, use_of};
