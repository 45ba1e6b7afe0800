//! Chooses the interval of each loop from what workers reported.
//!
//! `gather` puts the entries of all reports into a cell for each interval of each loop, and goes up from each MII. What
//! no entry tells, it tries itself. So the choices rest on nothing that was looked at, posted or given up, and without
//! any report `gather` does the work of one thread.
#![tactic(auto)]

mod cells;
mod climbs;
mod gathers;

pub use gathers::{Chosen, gather};
