//! Tests of the lower crates together: texts go into the readers, and what was read into bounds and runs.
//!
//! These are the example of a call in `docs/LIBRARY.md`, and what no command prints of worked loops: memories that are
//! changed, canonical texts, the rounds that settle heights, and circuits that do not fit an interval.
#![tactic(auto)]

#[cfg(test)]
mod tests;
