//! What the operations of a problem wait for, as lines and as a graph for Graphviz, also with its solution.
#![tactic(auto)]

mod arrows;
mod demands;
mod dot;
mod edge_lines;
mod escapes;
mod heads;
mod laws;
mod names;
mod nodes;
mod scheduled;
mod whys;

pub use demands::read_edge;
pub use dot::push_dot;
pub use edge_lines::{push_edge, push_edges};
pub use heads::push_problem_line;
pub use laws::names_are_read_back;
pub use scheduled::push_scheduled;
pub use whys::Why;
