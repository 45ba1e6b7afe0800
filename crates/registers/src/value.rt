//! Values of an iteration, and what reads them.

/// A value of an iteration. An operation may make none, one or several.
#[derive(Clone, Copy, PartialEq, Eq)]
pub struct Value {
    /// The number of the operation that makes it, from 0.
    pub maker: usize,
    /// How many cycles after its operation's issue it lands, 0 to 64.
    pub lands: u64,
    /// Whether it is live at the end.
    pub out: bool,
}

/// An operation reads a value.
#[derive(Clone, Copy, Debug, PartialEq, Eq)]
pub struct Read {
    /// The number of the value, from 0.
    pub value: usize,
    /// The number of the operation that reads it, from 0.
    pub reader: usize,
    /// How many iterations ago the value was made, 0 to 16.
    pub distance: u64,
    /// How many cycles after its operation's issue it reads, 0 to 63.
    pub offset: u64,
}
