//! What `schedule`, `json`, `run`, `explain`, `vary` and `dot --scheduled` print, by several workers.
//!
//! A worker makes what is printed of one loop, or for `vary` what is found of it; of a large text it also reads and
//! schedules a piece (`schedule_text_of`, `document_text_of`, `run_text_of`). The clauses are those that the crates for
//! the calling thread have, however many workers there are. Where no worker is worth its start, the code of those
//! crates does the work.
#![tactic(auto)]

mod commands;
mod parts;

pub use commands::documents::document_text_of;
pub use commands::explaining::explain_text_on;
pub use commands::listings::listing_printout_on;
pub use commands::objects::{explain_document_on, explain_page_on};
pub use commands::scheduling::scheduled_text_on;
pub use commands::texts::{run_text_of, schedule_text_of};
pub use commands::varying::{vary_document_on, vary_text_on, vary_total_on};
