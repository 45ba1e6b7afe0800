//! Solves scheduling problems, and judges solutions that anybody made.
//!
//! `solve` tries one interval after another over one table: the attempt of `modulo`, then the least numbers of each
//! rotating file. What it finds is lawful (`IsSolved`), and a run of `instances`, so that the laws of that crate hold
//! of it. `solve_with_culprit` also tells what the last interval failed by, and `solve_told` tells it of each interval
//! that fails (`FailsFor`). All texts of a problem are made of what these calls tell, so that printing never schedules.
//! `Solution::check` judges a solution that is given, and names the first thing broken (`IsFirstBroken`).
#![tactic(auto)]

mod copies;
mod judging;
mod laws;
mod solution;
mod solving;
mod values;

pub use judging::broken::Broken;
pub use laws::{
    broken_is_unlawful, copies_are_crowds, copies_are_enough, gives_is_lawful,
    lawful_solutions_are_runs, lives_are_in_order, one_outcome, unroll_is_enough,
};
pub use solution::Solution;
pub use solving::outcome::{Cause, Outcome};
pub use solving::solve::{Solved, solve, solve_with_culprit};
pub use solving::told::{Told, solve_told};
pub use solving::trials::Trials;
pub use solving::tried::{Failure, Tried};
