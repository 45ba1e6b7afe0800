//! Tests of pieces and listings, and callers of workers in threads.
//!
//! Nothing here waits: no function has a bound that would let it.
#![tactic(auto)]

#[cfg(test)]
mod tests;
