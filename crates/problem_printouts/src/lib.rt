//! What the commands over scheduling problems print, from the bytes of their texts.
//!
//! `solve` and `check` solve or judge each problem once (`AnswersSolve`, `AnswersCheck`); `edges`, `dot` and `explain`
//! tell of each what `problem_graphs` and `problem_reasons` do. One walk goes over the problems of a file, whatever is
//! asked of them (`walk`). Workers draw problems from a counter, of which no clause speaks, and the calling thread
//! solves what they leave. A fault of the text of problems comes before one of the solutions.
#![tactic(auto)]

mod answers;
mod documents;
mod explaining;
mod graphing;
mod judging;
mod known;
mod making;
mod pieces;
mod scheduling;
mod sharing;
mod solving;
mod unknown;
mod walk;

pub use answers::Answers;
pub use explaining::explain_printout;
pub use graphing::{dot_printout, edges_printout};
pub use judging::check_printout;
pub use scheduling::scheduled_printout;
pub use solving::solve_printout;
