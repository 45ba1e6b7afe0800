//! Inputs and outputs with contracts: whole texts, files, and the standard input and output.
//!
//! Contracts tell the bytes that are left and those that are taken, where these are known, how many calls failed, and
//! what an output has handed on: what it had taken when a flush last succeeded. `write_texts` writes several texts one
//! after another, without a copy of them all.
#![tactic(auto)]

mod device;
mod text;

pub use device::{Fault, FileInput, Input, Output, StandardOutput};
pub use text::{ReadTextError, TEXT_LIMIT, read_text, read_text_of, write_text, write_texts};

/// The only error of calls that fail for lack of memory alone.
pub type OutOfMemory = std::alloc::AllocError;
