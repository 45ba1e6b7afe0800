//! What a worker found of one interval.
ghost use Rattle.std.specs.Prelude.{◌≡◌};
ghost use Rattle.reports.specs.Entries.{is_unsettled, is_won};

use candidates::Cause;
use kernel::Kernel;

/// What became of an interval of a piece.
#[derive(Drop)]
pub enum Found {
    /// It gives this kernel. The kernel is boxed, since most entries have none.
    Won(Box<Kernel>),
    /// A lower interval of the loop is known to give one, so it was not tried.
    Beaten,
    /// It gives none, and why.
    Failed(Cause),
    /// Memory ran out while it was tried. This says nothing of the interval.
    Unsettled,
}

impl Found {
    /// Whether it gives a kernel.
    pub fn is_won(&self) -> bool
        ensures { result ≡ is_won self.now }
    {
        matches!(self, Found::Won(_))
    }

    /// Whether memory ran out while it was tried.
    pub fn is_unsettled(&self) -> bool
        ensures { result ≡ is_unsettled self.now }
    {
        matches!(self, Found::Unsettled)
    }
}

/// What became of which interval of which loop.
#[derive(Drop)]
pub struct Entry {
    /// The loop, by its number in the file, from 0.
    pub loop_number: u16,
    /// The interval, in cycles.
    pub interval: u16,
    /// What became of it.
    pub found: Found,
}
