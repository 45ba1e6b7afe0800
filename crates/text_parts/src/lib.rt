//! What a command prints, as one text or as parts that are put together in order.
//!
//! Each part is given back as it is joined (`joined`). Parts of 64 KiB or more on average, as `plain` and `run` may
//! write, stay a list (`Parted`), which is written one after another. To contracts it is one text.
#![tactic(auto)]

mod joining;
mod part;
mod parted;

pub use joining::{append, joined, move_texts, room_for, texts_of};
pub use part::{HasText, Part};
pub use parted::{Bytes, Parted};
