//! Tests of what `explain` and `vary` tell of loops, by the calling thread alone.
//!
//! They stand apart from the crates that they test, since a crate with tests is proved twice. The program itself calls
//! functions that share loops among workers.
#![tactic(auto)]

#[cfg(test)]
mod tests;
