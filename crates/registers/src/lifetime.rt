//! When a value is live.

/// The most values that are looked at at once.
pub(crate) const MAX_VALUES: usize = 256;

/// When the value of an operation lives in iteration 0, in cycles. In iteration `j` it lives `j`
/// initiation intervals later.
#[derive(Clone, Copy, Default, PartialEq, Eq)]
pub struct Lifetime {
    /// The operation's number, from 0.
    pub operation: u8,
    /// The first cycle.
    pub first: u64,
    /// The last cycle, included.
    pub last: u64,
}
