//! What `json` prints of a machine and loops, where the calling thread does all work.
#![tactic(auto)]

mod alone;
mod listings;

pub use alone::json_alone;
pub use listings::document_printout;
