//! The kernels of a file as a JSON document, for other programs.
//!
//! `push_row` writes one loop at a time, so only one JSON value is ever in memory. The promise of the document
//! (`document_text`) speaks of the JSON value of the whole (`document_of`), and of `serde_json`'s definition of a text
//! without blanks. So nothing in it speaks of quotes or commas. A law says that loops written apart give the same bytes
//! (`DocumentsAreJoined`).
#![tactic(auto)]

mod document;
mod kernels;
mod laws;
mod rows;
mod told;

pub use document::document_text;
pub use laws::documents_are_joined;
pub use rows::push_row;
