//! Scheduling problems as a back end has them: kinds, operations, values, reads and orders, checked once.
//!
//! A `Draft` says all of it by numbers, and `first_fault` tells the first thing wrong in it, in a fixed order. A draft
//! without a fault gives a `Problem`, which holds a problem of `schedules` with an edge for each read and each order
//! (`AnswersDraft`). The alternatives of a kind are kept once, and neighbouring kinds with the same ones share them.
//! Laws say what schedules of a problem keep. `limits` names the limits of texts of problems and of solutions.
#![tactic(auto)]

mod checking;
mod draft;
mod fault;
mod label;
mod laws;
pub mod limits;
mod making;
mod problem;

pub use checking::first::first_fault;
pub use draft::{Draft, File, Hold, Kind, Names, Order, Value};
pub use fault::{Fault, Part, Refusal};
pub use label::Label;
pub use laws::{
    orders_are_kept, reads_are_in_time, reads_go_forward, sound_drafts_are_well_formed,
    values_are_values,
};
pub use problem::Problem;
