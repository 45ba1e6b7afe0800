//! What no clause says: that calls succeed where memory is there, and that workers run at once.

mod boards;
mod cuttings;
mod files;
mod gates;
mod given;
mod pieces;
mod works;
