//! Loops as data, the definition of what their iterations do, and the memory of a run.
//!
//! A `Loop` is valid by construction (`IsLoop`), and its accessors say so. The definition `plain` says what a loop
//! does, one iteration after another, and laws tell it instance by instance. `opening` makes the memory before the
//! first iteration. `into_parts` takes a memory apart for code that works on its cells, and `of_parts` puts it together
//! again. `ListOf` and `ShortListOf` are the lists in loops and kernels: contracts see them as lists. What needs loops
//! as data stands on this crate alone, and loads no proof about texts or runs. Users of the libraries take the crate
//! `loops`, which passes on what they need.
#![tactic(auto)]

mod arithmetic;
mod language;
mod laws;
mod list;
mod memory;
mod running;
mod short_list;

pub use arithmetic::{apply, apply_two, chosen};
pub use language::innermost::Loop;
pub use language::lists::{Array, Cells, Initial, Operands, Param};
pub use language::statement::{Operand, Place, Statement};
pub use laws::{
    cells_hold_last_stored, history_is_stable, instances_give_values, instances_read_values,
    plain_runs_keep_shapes,
};
pub use list::ListOf;
pub use memory::{ArrayCells, Memory, MemoryParts};
pub use running::run::{RunFault, opening};
pub use short_list::ShortListOf;
