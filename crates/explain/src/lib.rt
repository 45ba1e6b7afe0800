//! Why each loop has its interval, as lines of text.
//!
//! `told_choices` tells what is tried, and this crate writes it: it schedules nothing. The contract says part by part
//! what is told. The circuit is critical (`IsCritical`). Each interval that gives no kernel has its cause (`FailsBy`)
//! and the evidence for it (`IsWhy`). The set of units is the fullest of those that were looked at (`IsFullest`). What
//! holds the chosen interval is the greater bound, or, above both, the cause for which one cycle less fails (`IsHold`).
//! `least possible` stands where the set or the recurrences need the interval (`LeastIsLeast`). The schedule and the
//! registers are those of the kernel (`IsShown`).
#![tactic(auto)]

mod circuit;
mod file;
mod intervals;
mod laws;
mod shown;
mod single;

pub use file::{Explained, explain_lines, push_last, push_prepared};
pub use laws::{circuits_need_bounds, least_is_least};
pub use single::push_explanation;
