//! What `vary` prints: what a second unit, a shorter latency or other registers would bring each loop.
//!
//! What is found of a loop is data (`LoopFindings`), of which text, document and total are made. A loop's interval on a
//! variant is the one that is chosen for its problem there (`IsIntervalOn`). The number of registers plays no part in
//! an attempt, so attempts are kept (`tries`) and looked at again with each other number. For a unit or a latency the
//! loop is copied and prepared anew. A variant that does not concern a loop leaves its interval as it is, by a law
//! (`others_change_nothing`). The definition of the total (`IsVaryTotal`) knows no findings: it says which intervals
//! are added up.
#![tactic(auto)]

mod found;
mod laws;
mod search;
mod told;
mod varying;

pub use found::each::findings_of;
pub use found::files::{FileFindings, find_all};
pub use found::finding::{Finding, LoopFindings, Standing};
pub use laws::{one_interval, others_change_nothing};
pub use told::document::findings_document;
pub use told::parts::findings_text;
pub use told::totals::findings_total;
pub use varying::{vary_document, vary_text, vary_total};
