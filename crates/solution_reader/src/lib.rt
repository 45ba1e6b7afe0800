//! Reads texts of solutions of scheduling problems, each by the names of its problem.
#![tactic(auto)]

mod begun;
mod fault;
mod file;
mod numbers;
mod ops;
mod read;
mod resolve;
mod rows;
mod sofar;
mod spot;
mod values;

pub use file::SolutionFile;
pub use problem_faults::refused_solutions::{Part, SolutionFault, Wrong};
pub use read::read_solutions;
