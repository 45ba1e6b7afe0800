//! Scheduling problems as callers in C give them. A slice is a pointer and a length.

/// An operation holds a unit in one cycle.
#[repr(C)]
#[derive(Clone, Copy)]
pub struct Hold {
    /// The number of the unit, from 0.
    pub unit: u32,
    /// How many cycles after the operation's issue, 0 to 63.
    pub offset: u32,
}

/// A kind of operations.
#[repr(C)]
#[derive(Clone, Copy)]
pub struct Kind<'a> {
    /// How many cycles an operation takes until it is done, 1 to 64. What it makes lands when its values say.
    pub latency: u64,
    /// The 1 to 16 ways to issue the operation, each by 1 to 16 different holds.
    pub alternatives: &'a [&'a [Hold]],
}

/// A value of an iteration.
#[repr(C)]
#[derive(Clone, Copy)]
pub struct Value {
    /// The number of the operation that makes it, from 0.
    pub maker: u32,
    /// How many cycles after its operation's issue it lands, 0 to 64.
    pub lands: u32,
    /// Whether it is live at the end: 0 where it is not.
    pub out: u32,
    /// The number of its register file, from 0.
    pub file: u32,
}

/// An operation reads a value.
#[repr(C)]
#[derive(Clone, Copy)]
pub struct Read {
    /// The number of the value, from 0.
    pub value: u32,
    /// The number of the operation that reads it, from 0.
    pub reader: u32,
    /// How many iterations ago the value was made, 0 to 16.
    pub distance: u32,
    /// How many cycles after its operation's issue it reads, 0 to 63.
    pub offset: u32,
}

/// One operation comes before another: `t(to) + ii * distance >= t(from) + delay`.
#[repr(C)]
#[derive(Clone, Copy)]
pub struct Order {
    /// The number of the operation that comes first, from 0.
    pub from: u32,
    /// The number of the operation that waits for it, from 0.
    pub to: u32,
    /// Cycles, -64 to 64.
    pub delay: i32,
    /// How many iterations later, 0 to 255.
    pub distance: u32,
}

/// A scheduling problem.
#[repr(C)]
#[derive(Clone, Copy)]
pub struct Problem<'a> {
    /// How many units there are, 1 to 64.
    pub units: u64,
    /// Of each register file how many rotating registers it has, 1 to 256, or 0 where its values are allotted to none.
    pub files: &'a [u32],
    /// The kinds of operations.
    pub kinds: &'a [Kind<'a>],
    /// Of each operation the number of its kind, from 0, in the order of their iteration.
    pub operations: &'a [u32],
    /// The values.
    pub values: &'a [Value],
    /// The reads of values.
    pub reads: &'a [Read],
    /// What else has to be kept in order.
    pub orders: &'a [Order],
}
