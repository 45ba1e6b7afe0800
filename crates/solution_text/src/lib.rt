//! Solutions of problems as text that `check` can read again, and what `check` says of a solution.
//!
//! The text is a function of the names, the problem with its bounds, and the solution (`solution_text`); without a
//! solution, of the cause and the culprits of the last interval (`failed_text`). What `check` reads stands at the front
//! of lines, and the rest after `#`. A law says of each register's name: in the turn in which it is resolved, it is the
//! register in which the run of the solution has the instance (`NamesAreThoseOfRuns`). A part without a name is told by
//! its number. `verdicts` writes what `check` says: that a solution holds, what it breaks first, or what is missing.
#![tactic(auto)]

mod causes;
mod chains;
mod failures;
mod files;
mod heads;
mod issues;
mod laws;
mod named;
mod names;
mod operations;
mod outcomes;
mod parts;
mod solved;
mod uses;
mod values;
mod verdicts;

pub use causes::cause_word;
pub use failures::{push_cause, push_failed};
pub use files::has_free;
pub use issues::{held_rows, stage_of};
pub use laws::names_are_those_of_runs;
pub use named::{MAX_ABOVE, Register, register_after};
pub use names::{push_name, push_op_name, push_unit_name};
pub use outcomes::push_outcome;
pub use solved::push_solution;
pub use values::carried;
pub use verdicts::{Missing, push_broken, push_missing, push_ok};
