//! What modulo scheduling is given (edges, latencies, alternatives), and which schedules of it are lawful.
//!
//! It knows no loop and attempts nothing. `Problem::new` finds ResMII and RecMII. A `Schedule` is lawful by its type:
//! `Schedule::check` accepts a list of times and alternatives exactly if it is a schedule, and `Schedule::judge` names
//! what another list breaks first.
#![tactic(auto)]

mod breach;
mod check;
mod demands;
mod laws;
mod problem;
mod schedule;
mod stages;

pub use breach::Breach;
pub use demands::demand;
pub use laws::{breaches_break, one_breach, one_problem, stages_are_few};
pub use problem::Problem;
pub use schedule::Schedule;
