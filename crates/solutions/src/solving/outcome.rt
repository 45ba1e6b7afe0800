//! What a problem gives.

use crate::solution::Solution;

/// Why an interval gives no solution, in the order in which the causes are tested.
#[derive(Clone, Copy, PartialEq, Eq)]
pub enum Cause {
    /// All alternatives of some operation collide with themselves.
    Table,
    /// The placements that the budget allows are used up.
    Budget,
    /// An operation is in stage 64 or later.
    Stages,
    /// No register is left for a value: the number of its file, and its own. It is the first such value of the first file that
    /// has one.
    Registers(usize, usize),
}

/// What a problem gives.
#[derive(Drop)]
pub enum Outcome<'a> {
    /// The solution of the least interval that has one.
    Met(Solution<'a>),
    /// No interval that is tried has one; the cause is that of the last one.
    Failed(Cause),
}
