//! The dependences of loops as lines, and as graphs for Graphviz with a critical circuit.
//!
//! An edge does not say of which kind it is: `kind_of` tells it by the two opcodes, and for a store that depends on a
//! load also by the delay. Laws say that each dependence has one kind. `explain` and the texts of problems write some
//! of their lines by this crate (`push_circuit_line`).
#![tactic(auto)]

mod drawing;
mod kind;
mod laws;
mod listing;
mod names;

pub use drawing::dot::{push_arrow_end, push_arrow_start, push_dot};
pub use drawing::drawings::{critical_circuit, dot_graphs};
pub use kind::{Kind, kind_of};
pub use laws::{dependences_have_kinds, kinds_are_dependences, kinds_exclude};
pub use listing::circuit::push_circuit_line;
pub use listing::dependences::{edges_lines, push_edge};
pub use listing::sums::push_sums;
pub use names::push_name;
