//! Figures of a schedule: iteration length, slacks, registers needed, live values, and what takes each slot.
//!
//! The slack of an operation is the greatest number of cycles by which it alone can be issued later (`issued_later`),
//! so that each edge is kept and the last landing stays where it is. `Takers` tells which operation takes each slot,
//! and a law says that no other one does. All that is told of a schedule, as text or as JSON, is made from these.
#![tactic(auto)]

mod figures;
mod laws;
mod live_counts;
mod slacks;
mod takers;

pub use figures::{Figures, figures_of};
pub use laws::slots_have_one_taker;
pub use live_counts::{counts_of, greatest_of};
pub use takers::{Takers, rows_at};
