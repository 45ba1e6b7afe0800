//! How a run of the program ends: its exit status, the line that tells of a fault, and a whole output.
//!
//! It knows no command's work, so that wrong edits of it are refused quickly. An output is one text (`finish`), or
//! several one after another (`finish_texts`).
#![tactic(auto)]

mod status;
mod verdict;
mod written;

pub use status::{Line, Status};
pub use verdict::Verdict;
pub use written::{finish, finish_texts, show};
