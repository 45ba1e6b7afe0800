//! The modulo reservation table: which operation holds which unit in which cycle of the interval.
//!
//! Three implementations behave as a set of placements (operation, time, alternative). Contracts of `ModuloTable` speak
//! of that set alone, so that a scheduler is proved once for all three. `OwnerTable` keeps the operation in each slot.
//! `MaskTable` has a word for each residue, with a bit for each unit; `TimelineTable` has a word for each unit, with a
//! bit for each residue. These two are one `BitTable` over a `Layout`: a slot is held exactly where its bit is set.
//! `DefaultTable` is the one that listings are made with. A search for a free time tests up to 8 times at once in a
//! `MaskTable`, and up to 64 in a `TimelineTable`. What depends on the interval is made once for each interval (`at`).
//! Operations with the same alternatives share them: `make` compares rows, `of_kinds` is told the kinds.
#![tactic(auto)]

mod bits;
mod memory;
mod owner;
mod rosters;
mod table;
mod words;

pub use bits::{DefaultTable, MaskTable, TimelineTable};
pub use owner::OwnerTable;
pub use table::ModuloTable;
