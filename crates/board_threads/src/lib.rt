//! Tests of boards: workers over any board, each call of both boards, and threads that share a board of words.
//!
//! That threads see one another's posts is only tested. Nothing here waits, but for the tests of the board that locks:
//! no other function has a bound that would let it.
#![tactic(auto)]

#[cfg(test)]
mod calls;
#[cfg(test)]
mod tests;
mod worker;

pub use worker::drain;
