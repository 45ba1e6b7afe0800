//! The dependences of a loop with ResMII and RecMII, and the lines of these that `bounds` prints.
//!
//! `measure` finds all of it at once. Where loops lack a table, `TextFault` names the first such loop with its first
//! opcode that has none. A text of several things has a part for each, with a value that is right for it (`AreTexts`).
//! The texts of `graph_text` are defined so, too, and the same lemmas serve both.
#![tactic(auto)]

mod fault;
mod lines;
mod measuring;

pub use fault::TextFault;
pub use lines::{bounds_lines, push_bounds_line, push_bounds_told};
pub use measuring::{LowerBounds, Measured, measure};
