//! Loops that are prepared for scheduling on a machine, and their schedules.
//!
//! A `Prepared` holds the loop, its registers and its `Problem`. Contracts say of the loop what `schedules` says of its
//! problem (`without_loop`). Laws say that the problem's graph is the loop's, and that a schedule keeps every
//! dependence of the loop. `overlap` and `rotating` stand on this crate and on no attempt, so that they are proved
//! beside the attempts.
#![tactic(auto)]

mod laws;
mod loop_problems;
mod offers;
mod prepared;
mod schedule;

pub use laws::{one_problem, problems_have_graphs, schedules_keep_dependences, stages_are_few};
pub use loop_problems::loop_problem;
pub use prepared::Prepared;
pub use schedule::Schedule;
