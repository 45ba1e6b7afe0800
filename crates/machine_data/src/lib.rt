//! Machines as data: opcodes, units, reservation tables and registers; and the limits of all texts and settings.
//!
//! A `Machine` is valid by construction: whatever the checks of a machine text require is an invariant of the type, and
//! its accessors say so. What needs machines and no machine text stands on this crate, so that it loads no proof about
//! texts. `limits` names the limits of machines, loops, problems and settings.
#![tactic(auto)]

mod alternative;
pub mod limits;
mod machine;
mod name;
mod opcode;
mod opcode_table;

pub use alternative::{Alternative, Alternatives, Row};
pub use machine::Machine;
pub use name::Name;
pub use opcode::{OPCODES, Opcode};
pub use opcode_table::OpcodeTable;

/// The only error of calls that fail for lack of memory alone.
pub type OutOfMemory = std::alloc::AllocError;
