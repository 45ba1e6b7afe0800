//! A text that a command over loops prints, with whether every loop has a kernel (`all_met`).
//!
//! The exit status goes by that. A command that looks for no kernels leaves no loop unmet.
#![tactic(auto)]

mod printout;

pub use printout::Printout;
