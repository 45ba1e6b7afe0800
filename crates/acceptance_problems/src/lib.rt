//! Tests of scheduling problems: drafts given by numbers, names at fault, problems without names, pieces of lines.
//!
//! All is worked by hand. How many bytes the word at fault of a line or of a text has is compared, too. What the program
//! prints of texts is in `tests/sessions`, and loops given as problems are in `tests/problems_as_loops`.
#![tactic(auto)]

#[cfg(test)]
mod tests;
