//! What is chosen for a loop, with the evidence of it.

ghost use Rattle.std.specs.Prelude.{◌≡◌};
ghost use Rattle.told_choices.specs.Told.{choice_of};

use candidates::{Cause, Choice};
use figures::Figures;
use told_intervals::Met;

/// What is chosen for a loop, with the evidence of it.
#[derive(Drop)]
pub enum Chosen<'a> {
    /// The least interval that gives a kernel, in cycles, with that kernel, its schedule and its registers, and the figures of
    /// the schedule.
    Met(u64, Met<'a>, Figures),
    /// No interval gives one; the cause is that of the last one.
    Failed(Cause),
}

impl<'a> Chosen<'a> {
    /// What is chosen, without the evidence.
    pub fn into_choice(self) -> Choice
        ensures value { result ≡ choice_of self.entry }
    {
        match self {
            Chosen::Met(ii, met, _) => Choice::Met(ii, met.kernel),
            Chosen::Failed(cause) => Choice::Failed(cause),
        }
    }
}
