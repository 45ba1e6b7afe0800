//! How the bits of a table stand in words, and what is read of many words at once.

pub(crate) mod lanes;
pub(crate) mod layout;
pub(crate) mod masks;
pub(crate) mod rounds;
pub(crate) mod timelines;
pub(crate) mod times;
