//! What the lines of a solution tell.

use problem_lines::Word;

/// How a solution begins.
#[derive(Clone, Copy)]
pub(crate) struct Head<'a> {
    /// The name of its problem.
    pub(crate) name: Word<'a>,
    /// The number of its line, from 1.
    pub(crate) line: usize,
    /// The interval, in cycles.
    pub(crate) ii: u64,
}

/// The line of an operation.
#[derive(Clone, Copy)]
pub(crate) struct OpTime<'a> {
    /// The operation's name.
    pub(crate) name: Word<'a>,
    /// The number of its line, from 1.
    pub(crate) line: usize,
    /// Its issue time in iteration 0, in cycles.
    pub(crate) time: u64,
    /// Its alternative, from 0.
    pub(crate) alternative: u64,
}

/// The line of a value.
#[derive(Clone, Copy)]
pub(crate) struct ValueNumber<'a> {
    /// The value's name.
    pub(crate) name: Word<'a>,
    /// The number of its line, from 1.
    pub(crate) line: usize,
    /// Its number.
    pub(crate) number: u64,
}
