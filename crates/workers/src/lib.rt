//! The listing of a file by several workers, from the bytes of its text to the kernels.
//!
//! A text is cut after lines `end`, and each piece is read as a text of its own (`read_by_workers`). A law says that
//! the pieces together mean the loops of the text (`TextsAreReadApart`), but for names that are there twice and for too
//! many loops: these are tested. Wherever a piece is at fault, the calling thread reads the whole text, so that the
//! fault is that of one thread.
//! From 64 KiB on, each worker takes pieces all the way from reading to what is told of their kernels (`tell_text`). A
//! smaller text may have one loop that is most of the work. So workers first read it, then prepare its loops
//! (`prepare_by_workers`), and then share the intervals of each loop over a board.
#![tactic(auto)]

mod files;
mod laws;
mod pieces;
mod preparing;
mod reading;

pub use board_workers::{Gate, OpenGate, nothing_is_left, run_workers, work};
pub use collecting::{Chosen, gather};
pub use file_faults::FileFault;
pub use files::{choose_by_workers, pipeline, pipeline_file, pipeline_of, pipeline_on};
pub use laws::texts_are_read_apart;
pub use pieces::{Told, tell_text};
pub use preparing::prepare_by_workers;
pub use reading::apart::read_by_workers;
pub use reports::{Entry, Found, Report};
