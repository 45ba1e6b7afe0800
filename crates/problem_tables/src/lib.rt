//! What the lines of a text of problems have said so far, as tables with quick look-ups of names.
//!
//! A table tells the first fault of the next line, and takes in a line without one. It serves `problem_reader`.
#![tactic(auto)]

mod ended;
mod fault;
mod judging;
mod lines;
mod names;
mod opened;
mod room;
mod tables;

pub use ended::{Ended, TextMachine, TextProblem};
pub use fault::{Refusal, Told};
pub use tables::Tables;
