//! Innermost loops of 64-bit integers, for users of the libraries: their text is read, written and run here.
//!
//! It stands over `loop_data`, `plain_runs`, `loop_lines` and `loop_reader`, and passes on what users need of them.
//! `write_loop` writes the canonical text of a loop: to read that text gives just that loop (`reads_back`). The program
//! takes the crates below itself, since no command prints a canonical text.
#![tactic(auto)]

mod write;

pub use loop_data::{
    Array, Cells, Initial, Loop, Memory, Operand, Operands, Param, Place, RunFault, Statement,
    apply, apply_two, cells_hold_last_stored, history_is_stable, instances_give_values,
    instances_read_values, opening, plain_runs_keep_shapes,
};
pub use loop_reader::{LoopFault, LoopFaultKind, read_loops};
pub use plain_runs::{run_beginning, run_from, run_plain};
pub use write::write_loop;
