//! Parts of lines that all texts are made of: words, numbers, names with numbers, and lines of counts.
//!
//! Each call pushes its part after a text, which is a `String` or bytes (`Text`), and its clause says what stands there
//! then. Where memory ran out, that is a beginning of the part, or nothing (`HasPart`).
#![tactic(auto, using(crate::proofs::Beginnings::front_part, crate::proofs::Beginnings::later_part, crate::proofs::Beginnings::no_part))]

mod lines;
mod parts;
mod text;

pub use lines::{push_last, push_line};
pub use parts::{
    push_at, push_both, push_integer, push_number, push_signed, push_told, push_with_sign,
};
pub use text::Text;

/// The only error of calls that fail for lack of memory alone.
pub type OutOfMemory = std::alloc::AllocError;
