//! What `explain` prints of loops as lines, as JSON or as a page, where the calling thread does all work.
//!
//! Lines and objects are made by two crates that know nothing of one another: `explain` and `explain_json`.
#![tactic(auto)]

mod explaining;
mod object;
mod objects;

pub use explaining::{explain_document, explain_objects, explain_page, explain_text};
pub use object::push_prepared_json;
pub use objects::{Object, object_of, objects_document, objects_page};
