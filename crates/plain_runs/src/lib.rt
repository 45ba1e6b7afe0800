//! Runs loops one iteration after another, and leaves the memory that the definition `plain` says.
//!
//! The definition keeps the whole history of values. The code goes through blocks of at most 128 iterations, and keeps
//! the values of each statement in a column. Statements are run in groups, as by loop distribution in a compiler: a
//! group goes through the whole block before the next one does. Statements that wait for one another in a circuit are
//! in one group. Groups are found without a proof. What is proved are the tests of them: `keeps_order` that groups can
//! be run so, `may_go_by_two` that a statement can go through two iterations at once, `is_closed` that the statements
//! which are left out are read by nobody. Where a test fails, the code takes the slower way. A run of fewer than 32
//! iterations has one group.
//! Users of the libraries take the crate `loops`.
#![tactic(auto)]

mod act;
mod act_twice;
mod alone;
mod block;
mod by_two;
mod choosing;
mod columns;
mod combining;
mod computing;
mod filling;
mod group;
mod groups;
mod iterate;
mod live;
mod order;
mod passing;
mod ranks;
mod resolve;
mod run;
mod sources;
mod step;
mod storing;
mod together;

pub use run::{run_beginning, run_from, run_plain};
