//! What is chosen for a loop.

ghost use Rattle.std.specs.Prelude.{◌≡◌};
ghost use Rattle.loop_listings.specs.Listings.{is_failed, is_met};

use crate::causes::Cause;
use kernel::Kernel;

/// What is chosen for a loop.
#[derive(Drop)]
pub enum Choice {
    /// The least interval that gives a kernel, in cycles, and that kernel.
    Met(u64, Kernel),
    /// No interval gives one; the cause is that of the last one.
    Failed(Cause),
}

impl Choice {
    /// Whether the loop has a kernel.
    pub fn is_met(&self) -> bool
        ensures value { result ≡ is_met self.now }
    {
        matches!(self, Choice::Met(_, _))
    }

    /// Whether it has none.
    pub fn is_failed(&self) -> bool
        ensures value { result ≡ is_failed self.now }
    {
        matches!(self, Choice::Failed(_))
    }
}
