//! What a pass did, and what a board is made for. Contracts alone speak of a `View`: no value of it is made.
use std::collections::LinkedList;

/// What one pass did so far.
pub struct View {
    /// The numbers drawn.
    pub drawn: LinkedList<u64>,
    /// Each loop with the interval posted for it.
    pub posted: LinkedList<(usize, u64)>,
    /// Each loop with the answer of a look at it.
    pub seen: LinkedList<(usize, Option<u64>)>,
    /// For how many of the passes that were made it stands.
    pub count: u64,
}

/// The sizes of a board.
#[derive(Clone, Copy)]
pub struct Terms {
    /// How many loops have a word.
    pub loops: usize,
    /// How many pieces there are to draw.
    pub pieces: u64,
    /// How many passes were made.
    pub passes: usize,
}
