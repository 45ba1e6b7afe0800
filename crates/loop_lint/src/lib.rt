//! Finds the faults of a loop text, not only the first, each with the word that it is about.
//!
//! `lint_loops` answers just the faults that the text's meaning lists; the first is the one that `read_loops` tells.
//! `lint_loops_for` tells the same and the statements whose opcode a machine has no table for. It tells nothing exactly
//! where the text gives loops and the machine has all tables for them (`silent`). The text of each loop is walked
//! twice: first to take down what lines say of names, then to judge. So it takes n log n steps for n bytes, also where
//! each line is at fault. A fault has what helps to mend it: the nearest name, or the numbers of the initial values
//! that are missing.
#![tactic(auto)]

mod block;
mod fault;
mod fits;
mod hints;
mod judge;
mod lacks;
mod lint;
mod misfit;
mod passes;
mod scan;
mod spots;
mod tell;
mod uses;

pub use fault::{Hint, LintFault};
pub use hints::name_in;
pub use lacks::{LoopLint, NoTable, lint_loops_for};
pub use lint::lint_loops;
