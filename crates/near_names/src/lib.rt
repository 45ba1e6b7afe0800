//! Finds the name that is nearest to a word which names nothing, for `did you mean`.
//!
//! `nearest` answers the first of the nearest names, or none where no name is near enough.
#![tactic(auto)]

mod names;
mod words;

pub use names::nearest;
pub use words::Word;
