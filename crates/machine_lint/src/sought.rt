//! Where the keys of a tree stand in its text, found for all of them in one walk over the text.

pub(crate) mod answers;
mod next;
pub(crate) mod seek;
mod stands;
mod words;
