//! What `schedule` prints of kernels that were found, what `bounds` prints, and the last lines of commands.
//!
//! It searches for nothing. What is printed of a listing does not depend on who made it: workers, or one thread.
#![tactic(auto)]

mod bounds;
mod last;
mod listings;

pub use bounds::bounds_text;
pub use last::push_last;
pub use listings::{are_met, listing_printout, push_counts};
