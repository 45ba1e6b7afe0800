//! Tests of texts over devices that fail, of command lines, of faults that `lint` tells, and of exit statuses.
//!
//! They stand apart from the crates that they test, since a crate with tests is proved twice. Machine texts with a
//! fault of each kind, and the lines of each status, are in `tests/sessions`.
#![tactic(auto)]

#[cfg(test)]
mod tests;
