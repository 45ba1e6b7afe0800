//! Finds the faults of a machine text, not only the first, each with its key and its place in the text.
//!
//! `lint_machine` answers the list `tree_told`: just the faults of the relation `HasMachineFault`, which has one rule
//! for each kind. The first is the one that the reader tells. `near_name` answers the key, unit or opcode that may be
//! meant. The place of a text that is not UTF-8 is its first byte in no character. That of a text that is no TOML is
//! where the reader of TOML stopped: the contract says only that it is in the text.
//! Before the tree of TOML is walked, all its keys are sought in the text (`sought`). One walk from the end of the text
//! to its start finds, for each offset, the keys that stand there. So the place of a fault costs one look-up. Keys that
//! begin with one another may take longer.
#![tactic(auto)]

mod hints;
mod index;
mod judge;
mod lint;
mod place;
mod search;
mod sought;
mod spots;
mod tree;

pub use hints::{declared_units, near_name};
pub use lint::lint_machine;
pub use place::MachineLint;
pub use spots::{Found, Spot};
