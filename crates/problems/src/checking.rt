//! How the first fault of a draft is found.

pub(crate) mod first;
mod kinds;
mod names;
mod parts;
