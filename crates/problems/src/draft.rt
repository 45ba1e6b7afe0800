//! Scheduling problems as they are given, before anything is checked.

use crate::label::Label;
use registers::Read;
use smallvec::SmallVec;

/// A register file.
#[derive(Clone, Copy, Debug, PartialEq, Eq)]
pub enum File {
    /// So many rotating registers, 1 to 256, which the file's values are allotted to.
    Rotating(usize),
    /// The file's values are allotted to no registers.
    Unallotted,
}

/// An operation holds a unit in one cycle.
#[derive(Clone, Copy, Debug, Default, PartialEq, Eq)]
pub struct Hold {
    /// The number of the unit, from 0.
    pub unit: usize,
    /// How many cycles after the operation's issue, 0 to 63.
    pub offset: u64,
}

/// A kind of operations: what its operations have in common.
#[derive(Debug, Drop)]
pub struct Kind {
    /// Cycles from the issue to the landing of what the operation makes, 1 to 64.
    pub latency: u64,
    /// The 1 to 16 ways to issue the operation, each by 1 to 16 different holds. Up to two ways of up to two holds take no
    /// memory.
    pub alternatives: SmallVec<SmallVec<Hold, 2>, 2>,
}

/// A value of an iteration. An operation may make none, one or several.
#[derive(Clone, Copy, Debug, PartialEq, Eq)]
pub struct Value {
    /// The number of the operation that makes it, from 0.
    pub maker: usize,
    /// How many cycles after its operation's issue it lands, 0 to 64.
    pub lands: u64,
    /// Whether it is live at the end.
    pub out: bool,
    /// The number of its register file, from 0.
    pub file: usize,
}

/// One operation comes before another: at an interval `ii`, the issue times `t` of a schedule have to keep
/// `t(to) + ii * distance >= t(from) + delay`.
#[derive(Clone, Copy, Debug, PartialEq, Eq)]
pub struct Order {
    /// The number of the operation that comes first, from 0.
    pub from: usize,
    /// The number of the operation that waits for it, from 0.
    pub to: usize,
    /// Cycles, -64 to 64.
    pub delay: i64,
    /// How many iterations later, 0 to 255. Within an iteration orders go forward only.
    pub distance: u64,
}

/// The names of the parts of a problem: of each part none at all, or one for each, all different.
#[derive(Debug, Drop)]
pub struct Names {
    /// The names of the units.
    pub units: Vec<Label>,
    /// The names of the register files.
    pub files: Vec<Label>,
    /// The names of the kinds.
    pub kinds: Vec<Label>,
    /// The names of the operations.
    pub operations: Vec<Label>,
    /// The names of the values.
    pub values: Vec<Label>,
}

/// A scheduling problem as it is given, which may still be at fault: numbers may be out of range, and may be of
/// parts that there are not.
#[derive(Debug, Drop)]
pub struct Draft {
    /// How many units there are, 1 to 64.
    pub units: usize,
    /// The register files, 0 to 8.
    pub files: Vec<File>,
    /// The kinds of operations, 1 to 256.
    pub kinds: Vec<Kind>,
    /// Of each operation the number of its kind, from 0; 1 to 128 operations, in the order of their iteration.
    pub operations: Vec<usize>,
    /// The values, 0 to 256.
    pub values: Vec<Value>,
    /// The reads of values, 0 to 2,048. A read of this iteration's value is of one that an earlier operation makes.
    pub reads: Vec<Read>,
    /// What else has to be kept in order, 0 to 16,384.
    pub orders: Vec<Order>,
    /// The names.
    pub names: Names,
}
