//! Loops as graphs in the language of Graphviz.

pub(crate) mod dot;
pub(crate) mod drawings;
