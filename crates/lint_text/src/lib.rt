//! Faults of machine texts and of loop texts as lines for editors and `make`, and as JSON.
//!
//! A line is `PATH:LINE:COL: WORD: WHAT`. `push_loop_faults` goes through the text once, since faults ascend by lines.
//! `lint_printout` and `lint_document` tell no fault exactly where each text gives something and the machine, if one is
//! given, has a table for each opcode of the loops (`silent`).
#![tactic(auto)]

mod document;
mod lines;
mod machine_words;
mod machines;
mod places;
mod printout;
mod what;
mod words;

pub use document::lint_document;
pub use lines::push_loop_faults;
pub use machines::push_machine_faults;
pub use printout::{LintText, Named, lint_printout};
