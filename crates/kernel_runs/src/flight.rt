//! Writes in flight: they were issued and haven't landed.

/// What a write changes.
#[derive(Clone, Copy)]
pub(crate) enum Place {
    /// This physical register.
    Register(u32),
    /// This cell of this array.
    Cell(u8, i32),
}

/// A write in flight. It takes two words, so that a shift finds it.
#[derive(Clone, Copy)]
pub(crate) struct Pending {
    pub(crate) place: Place,
    pub(crate) value: i64,
}
