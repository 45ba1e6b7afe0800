//! The theorem of the whole, as definitions and laws: a kernel leaves the memory that its loop leaves.
//!
//! It is `OverlapIsSequence` in `specs/Overlap.antt`, over the relation `RunsAsLoop`. `emit` of `rotating` promises it,
//! and `engine` promises it of each kernel that it prints. `emitted` is the kernel of a schedule and an allotment.
//! Between the kernel's writes and the plain run stands a third list: the writes that instances would make of the plain
//! run's values, in the kernel's cycles. One induction proves that the kernel's list is this one. What registers hold
//! comes from `instances`: a scheduled loop with its allotment is a run of it (`run_of`).
#![tactic(auto)]

mod laws;

pub use laws::{
    instances_are_issued_once, kernels_are_well_formed, kernels_keep_schedules,
    lifetimes_are_of_values, loads_follow_stores, names_are_of_instances, overlap_is_sequence,
    registers_hold_values, writes_are_of_values,
};
pub use registers::{Lifetime, least_is_lawful, least_is_one, least_or_none};
