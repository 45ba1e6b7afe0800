//! One line of a loop text: its words with their columns, its numbers, and the form that it has.
//!
//! `problem_lines` finds the words of its lines by it, too. Users of the libraries take the crate `loops`.
#![tactic(auto)]

mod blanks;
mod cells;
mod feeds;
mod form;
mod laws;
mod name;
mod number;
mod operand;
mod word;
mod words;

pub use blanks::past_blanks;
pub use cells::{CellWords, are_wide, cells_of};
pub use form::{Form, StatementWords, Subscript, Use, Uses, form_of};
pub use laws::words_are_words;
pub use number::{int_of, number_of};
pub use words::{count_word, ends_word, next_line};
