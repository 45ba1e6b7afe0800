//! Why an interval gives no kernel.

ghost use Rattle.std.specs.Prelude.{◌≡◌};
ghost use Rattle.loop_listings.specs.Causes.{culprit_cause};
ghost use Rattle.loop_listings.specs.Texts.{cause_word};

use modulo::Culprit;

/// Why an interval gives no kernel, in the order in which the causes are tested.
#[derive(Clone, Copy, PartialEq, Eq)]
pub enum Cause {
    /// All alternatives of some operation collide with themselves.
    Table,
    /// The placements that the budget allows are used up.
    Budget,
    /// An operation is in stage 64 or later.
    Stages,
    /// Some value has no register.
    Registers,
}

impl Cause {
    /// The cause of an interval whose attempt this keeps from a schedule.
    pub fn of(culprit: &Culprit) -> Cause
        ensures value { result ≡ culprit_cause culprit.now }
    {
        match culprit {
            Culprit::Blocked(_) => Cause::Table,
            Culprit::Unplaced(_) => Cause::Budget,
            Culprit::Late(_, _) => Cause::Stages,
        }
    }

    /// The word that tells it in a listing.
    pub fn word(self) -> &'static str
        ensures value { result.now ≡ cause_word self }
    {
        match self {
            Cause::Table => "table",
            Cause::Budget => "budget",
            Cause::Stages => "stages",
            Cause::Registers => "registers",
        }
    }
}
