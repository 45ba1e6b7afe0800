//! Reads machine texts: units, registers, and for each opcode its latency and reservation tables.
//!
//! For all bytes, `read_machine` answers the machine that the text describes or the first check that it fails, as the
//! definition `machine_of` says, unless memory runs out. Words of faults are specified, here and elsewhere: a clause
//! `output` says exactly what `Display` prints. Users of the libraries find here what they need of `machine_data`.
#![tactic(auto)]

mod read;

pub use machine_data::{
    Alternative, Alternatives, Machine, Name, Opcode, OpcodeTable, OutOfMemory, Row, limits,
};
pub use read::{is_unit_name, read_machine, row_words, small_offset};
pub use reader_faults::{Key, MachineFault};
