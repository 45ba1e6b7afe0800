//! Tests of schedules: worked loops and problems, with times and alternatives that were found by hand.
//!
//! They run over all three reservation tables, which also agree with one another on longer loops. Lists of times are
//! checked.
#![tactic(auto)]

#[cfg(test)]
mod tests;
