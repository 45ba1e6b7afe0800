//! What can be wrong with a machine text or a loop text, and the words in which it is told.
//!
//! It stands below both readers, so that a crate which passes their faults on need not stand on them.
#![tactic(auto)]

mod loops;
mod machine;

pub use loops::{LoopFault, LoopFaultKind};
pub use machine::{Key, MachineFault};
