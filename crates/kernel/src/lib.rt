//! Software-pipelined kernels with rotating registers: their parts, rules and text, and what a run leaves.
//!
//! `Kernel::check` accepts just the well-formed kernels, and of any other names the first rule that fails.
//! `Kernel::new` takes parts that are proved to be well formed, and tests nothing. The definition `overlapped` says
//! which memory a run leaves: it lists the writes of all operations that are issued before a cycle. What needs kernels
//! and runs none stands on this crate, and waits for no proof of the machine that runs them.
#![tactic(auto)]

mod kernels;
mod laws;
mod text;

pub use kernels::check::{BadKernel, Rule};
pub use kernels::lists::{ArrayNames, Operations, Outs, Params, Preloads, Sources};
pub use kernels::operation::{Address, Operation, Source};
pub use kernels::parts::{Kernel, Out, Parts, Preload};
pub use laws::{runs_keep_shapes, well_formed_keeps_rules};
pub use text::{kernel_text, text_room, write_kernel};
