//! What can be wrong with texts of problems or of solutions, and the words in which it is told.
//!
//! `exit_status` stands on this crate, and on no reader of such texts.
#![tactic(auto)]

mod expected;
mod fault;
pub mod refused_problems;
pub mod refused_solutions;

pub use expected::Expected;
pub use fault::ProblemsFault;
