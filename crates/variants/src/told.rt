//! What is told of what is found: as text, as JSON, and in all for a file.

pub(crate) mod columns;
pub(crate) mod document;
pub(crate) mod lines;
pub(crate) mod parts;
pub(crate) mod totals;
pub(crate) mod values;
