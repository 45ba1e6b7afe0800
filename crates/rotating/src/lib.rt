//! Makes the kernel of a scheduled loop: when values live, their rotating registers, and the emitted parts.
//!
//! `allot` gives the values of a schedule the least numbers of `registers`. `first_without_number` tells the first
//! value for which none is left, and `allot_or_lack` answers one or the other in one pass. `Allotment::check` accepts
//! given numbers where they are lawful. `emit` makes the kernel, in lists of exact capacity.
#![tactic(auto)]

mod kernels;
mod numbers;
mod values;

pub use kernels::emission::emit;
pub use numbers::allotment::{Allotment, Allotted, allot, allot_or_lack, first_without_number};
pub use numbers::need::least_registers;
pub use registers::{Lifetime, ages_are_between, forbids_between, lawful_more, shifts_are_between};
pub use values::crowd::live_in;
pub use values::lifetime::{last_landing, lifetimes};
