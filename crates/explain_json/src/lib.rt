//! Why a loop has its interval, as a JSON object: bounds, dependences, the intervals tried, and the kernel.
//!
//! It attempts nothing. It takes what `told_choices` told of the loop (`IsTold`), with the choices of ResMII, the
//! fullest set of units that was looked at and a critical circuit, and makes the value that the definition says
//! (`object_of`).
#![tactic(auto)]

mod circuit;
mod dependences;
mod kernels;
mod loops;
mod names;
mod operations;
mod slots;
mod tried;
mod units;
mod values;

pub use loops::push_loop_json;
