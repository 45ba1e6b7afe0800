//! The modulo reservation table as a grid.

pub(crate) mod cells;
pub(crate) mod columns;
pub(crate) mod grid;
pub(crate) mod uses;
pub(crate) mod widths;
