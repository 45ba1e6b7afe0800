//! Two values that meet in a register.

/// Two values of which instances stand in one register in one cycle. The two may be one value; then they are different
/// instances of it.
#[derive(Clone, Copy, PartialEq, Eq)]
pub struct Meeting {
    /// The place of the value that comes earlier in the list, from 0.
    pub earlier: usize,
    /// The place of the other one, no less.
    pub later: usize,
    /// The number of the register.
    pub register: usize,
    /// A cycle in which both stand there, the later value by its instance of iteration 0.
    pub cycle: u64,
}
