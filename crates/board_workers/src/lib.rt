//! Workers in threads: each draws intervals of loops from a board, tries them and reports.
//!
//! It has only `reports` in common with `collecting`, so that both are built side by side.
#![tactic(auto)]

mod gate;
mod laws;
mod places;
mod run;
mod turn;
mod works;

pub use gate::{Gate, OpenGate};
pub use laws::nothing_is_left;
pub use run::run_workers;
pub use works::work;
