//! Why a problem has its interval, as text: units, circuits, each interval that fails, and the solution.
//!
//! The lines that loops have too are those of `reason_lines`. The lines of intervals are written from the failures that
//! `solve_told` told: just the intervals from MII on that give no solution, each with its cause and culprits
//! (`FailsFor`).
#![tactic(auto)]

mod circuit;
mod hold;
mod laws;
mod reasons;
mod sets;
mod tries;
mod units;

pub use hold::Hold;
pub use laws::least_is_least;
pub use reasons::push_reasons;
