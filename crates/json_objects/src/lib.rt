//! Builds objects of JSON member by member, and documents of loops part by part.
//!
//! The call that adds a member takes the members before it and its value, whether or not they could be made, and that
//! memory ran out shows at the end, in one place (`with`, `object_of`). A `json!` of many members costs the checker far
//! more: each member has two ways out, on each of which all that is made so far is dropped. `push_head` and `push_tail`
//! write the beginning and the end of a document, between which stand the objects of its loops.
#![tactic(auto)]

mod documents;
mod objects;

pub use documents::{push_head, push_tail};
pub use objects::{object_of, with, with_value};
