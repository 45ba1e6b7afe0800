//! Dependences between operations.

/// A dependence of one operation upon another: at an interval `ii`, the issue times `t` of a schedule
/// have to keep `t(to) + ii * distance >= t(from) + delay`. Edges are ordered by their fields.
#[derive(Clone, Copy, PartialEq, Eq, PartialOrd, Ord)]
pub struct Edge {
    /// The operation that comes first, by its number; below 128.
    pub from: u8,
    /// The operation that depends on it, by its number; below 128.
    pub to: u8,
    /// How many iterations later: 0 to 128 of a loop's dependence, 0 to 255 of an edge that is given.
    pub distance: u8,
    /// Cycles: -63 to 64 of a loop's dependence, -128 to 64 of an edge that is given.
    pub delay: i8,
}
