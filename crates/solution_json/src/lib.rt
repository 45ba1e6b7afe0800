//! What a problem comes to, as JSON: its solution or why it has none, with what its bounds are due to.
//!
//! The value is made part by part as the definition says (`met_object`, `failed_object`), of the same rows, registers,
//! lifetimes, circuits and units as the text. `serde_json` writes it.
#![tactic(auto)]

mod bounds;
mod failures;
mod initials;
mod members;
mod named;
mod operations;
mod outcome;
mod solved;
mod told;
mod values;

pub use outcome::push_outcome_json;
