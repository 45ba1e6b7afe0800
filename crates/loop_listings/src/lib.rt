//! What is chosen for each loop of a file, or why nothing is; its text; and the pieces that workers draw.
//!
//! A listing is a function of the loops and their choices, and its text is a function of the listing. This crate allots
//! no registers and makes no kernel, and so is proved beside the crates that do.
#![tactic(auto)]

mod causes;
mod choices;
mod laws;
mod listings;
mod pieces;
mod texts;

pub use causes::Cause;
pub use choices::Choice;
pub use laws::pieces_cover;
pub use listings::{Listing, Row};
pub use pieces::{Piece, Pieces};
pub use texts::{listing_text, number_failed, number_met, write_last, write_row, write_version};
