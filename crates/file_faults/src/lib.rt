//! Why a machine text and a loop text, taken together, are refused, and which refusal comes first.
#![tactic(auto)]

mod fault;

pub use fault::FileFault;
