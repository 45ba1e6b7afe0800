//! The least interval at which a loop has a kernel, and the listing of a file, by the calling thread alone.
//!
//! No thread is started and no lock is taken. `try_interval` answers what `Gives` says of a loop and an interval, in
//! the words of the crates below: the attempt, the least registers, the emitted kernel. It stops as soon as more values
//! live in one cycle than there are registers. `Trials` answers the same of one interval after another, over one table.
//! `IsChoice` says which interval is the least that gives a kernel, without a step from one interval to the next.
#![tactic(auto)]

mod choices;
mod laws;
mod listing;
mod outcomes;
mod preparing;
mod trials;

pub use choices::first_success;
pub use file_faults::FileFault;
pub use laws::{
    choice_laws, interval_laws, kernels_keep_loops, kernels_run_as_loops, listings_are_right,
    one_listing,
};
pub use listing::{choices_of, list_choices, pipeline_alone};
pub use loop_listings::{
    Cause, Choice, Listing, Piece, Pieces, Row, listing_text, number_failed, number_met,
    pieces_cover, write_last, write_row, write_version,
};
pub use outcomes::{Outcome, budget, try_interval};
pub use preparing::{prepare, prepare_all};
pub use settings::{OutOfRange, Settings};
pub use trials::{Trials, table_at};
