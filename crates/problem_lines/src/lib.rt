//! One line of a text of problems or of solutions: its words and its form, or the first fault of the line.
#![tactic(auto)]

mod eights;
mod fault;
mod form;
mod keyword;
mod kinds;
mod laws;
mod left;
mod lists;
mod names;
mod number;
mod piece;
mod scan;
mod solution_form;
mod word;

pub use eights::are_same;
pub use fault::LineFault;
pub use form::{Form, Line, line_of};
pub use kinds::{Alternatives, HoldWord, Holds};
pub use laws::names_are_labels;
pub use lists::UnitNames;
pub use number::{Integer, Number, Storage};
pub use problem_faults::Expected;
pub use solution_form::{SolutionForm, SolutionLine, solution_line_of};
pub use word::Word;
