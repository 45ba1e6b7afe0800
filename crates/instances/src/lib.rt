//! Laws of runs whose iterations overlap: what registers hold, and that values are those of sequential runs.
//!
//! These are definitions and laws alone, of operations of any kind. A run is an interval, issue times, values, reads,
//! and a home for each value. The crate says which instance stands in a register in a cycle (`StandsIn`). Its law
//! `RunsAreSequential` holds for whatever the operations compute: each history of overlapped iterations is that of one
//! iteration after another.
#![tactic(auto)]

mod laws;

pub use laws::{
    ends_hold_last, instances_are_issued_once, names_are_of_instances, openings_are_apart,
    registers_hold_instances, runs_are_sequential,
};
