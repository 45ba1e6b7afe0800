//! Reads texts of scheduling problems: machines and problems on them, or the first fault of the text.
#![tactic(auto)]

mod copies;
mod file;
mod kept;
mod read;

pub use file::ProblemFile;
pub use kept::KeptDrafts;
pub use problem_faults::refused_problems::{Part, TextFault, Wrong};
pub use read::read_problems;
