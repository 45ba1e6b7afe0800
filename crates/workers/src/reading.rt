//! The loops of a text, read by workers side by side: each reads pieces of the text, and the calling thread puts their loops together.

pub(crate) mod apart;
pub(crate) mod cutting;
pub(crate) mod joining;
pub(crate) mod names;
