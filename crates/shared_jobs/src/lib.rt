//! Parts of a whole that workers in threads make, each of them one job after another.
//!
//! A job is a part, by its number (`shared`, `parts_of`). Each worker draws the next job, those with most work first,
//! until none is left. A part is what a call for its number gave (`AreMade`), so nothing needs to be known of who drew
//! which job: the draws are a plain atomic number, of which no contract speaks. What is lacking in the end, the calling
//! thread makes. A worker is started for each 50,000 executed statements, or about as much other work. Below twice that
//! the calling thread works alone.
#![tactic(auto)]

mod drawn;
mod jobs;
mod slots;

pub use jobs::{Job, Jobs, shared};
pub use slots::parts_of;
