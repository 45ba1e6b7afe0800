//! One attempt of iterative modulo scheduling at one interval, for a loop on a machine.
//!
//! Each call asks `modulo`, and each contract says of the loop what `modulo` says of its problem.
#![tactic(auto)]

mod laws;
mod outcome;

pub use laws::{attempts_are_lawful, culprits_are_failures, one_answer};
pub use modulo::{Culprit, Failure};
pub use outcome::answers::{Answer, answer_on};
pub use outcome::attempts::{Try, attempt, attempt_on};
pub use outcome::culprits::culprit;
