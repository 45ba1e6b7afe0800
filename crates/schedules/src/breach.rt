//! What a list of times and alternatives breaks.

use edges::Edge;

/// What a list of times and alternatives breaks first, so that it is no schedule. The numbers are tested
/// first, operation by operation; then the rows, the edges and the stages.
#[derive(Clone, Copy, PartialEq, Eq)]
pub enum Breach {
    /// There is not one place for each operation.
    Count,
    /// The operation's time is above 1,048,575 cycles, which are 64 stages of the longest interval.
    Time(usize),
    /// The operation has no alternative of its number.
    Alternative(usize),
    /// A row of `later` takes the slot of a row before it. Rows are taken operation by operation, and within
    /// one in the order of its alternative.
    Slot {
        /// The operation that has the slot: `later` itself, or one before it.
        earlier: usize,
        /// The operation that takes the slot once more.
        later: usize,
        /// The unit's number, below 64.
        unit: usize,
        /// The residue of the row's cycle at the interval.
        residue: u64,
    },
    /// The edge is not kept: its target is issued this number of cycles too early, at least 1.
    Edge(Edge, u64),
    /// The operation is in stage 64 or later.
    Stage(usize),
}
