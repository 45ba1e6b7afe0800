//! One attempt of iterative modulo scheduling at one interval, for operations with edges and alternatives.
//!
//! `attempt` answers exactly what the scheduling machine of the definition comes to within a budget, over any
//! implementation of the table. `answer_on` also answers what keeps the attempt from a schedule, and `culprit` keeps
//! only that. Laws say that an attempt has one answer and that its end is lawful. Each operation has its last placement
//! and whether that stands (`Progress`). The operations that wait are the bits of one word by falling height (`Queue`),
//! so that one instruction finds the next. A step finds the earliest time (`place`), finds a slot or a forced place and
//! clears what holds it (`settle`), and takes out the operations whose edges are broken now (`evict`). All memory of an
//! attempt is taken before its first step.
#![tactic(auto)]

mod laws;
mod outcome;
mod problem;
mod stepping;

pub use laws::{attempts_are_lawful, culprits_are_failures, one_answer};
pub use outcome::answers::{Answer, answer_on};
pub use outcome::attempts::{Culprit, Failure, Try, attempt, attempt_on};
pub use outcome::culprits::culprit;
