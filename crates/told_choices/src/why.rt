//! Why an interval gives no kernel, as it is told.

ghost use Rattle.std.specs.Prelude.{◌≡◌};
ghost use Rattle.told_choices.specs.Whys.{why_cause};

use candidates::Cause;
use ims::Culprit;
use rotating::Lifetime;

/// Why an interval gives no kernel. Of the intervals of a loop that fail for registers, the first and the last tell how many
/// registers all values need; the others tell the first value that has none, since it takes a search to find the need.
#[derive(Drop)]
pub enum Why {
    /// What keeps the attempt from a schedule.
    Attempt(Culprit),
    /// The first value of the schedule that has no register.
    Register(Lifetime),
    /// That value, and the [least number of registers](rotating::least_registers) for which each value has one, if there is
    /// such a number.
    Need(Lifetime, Option<u64>),
}

impl Why {
    /// The cause for which the interval gives no kernel.
    pub fn cause(&self) -> Cause
        ensures value { result ≡ why_cause self.now }
    {
        match self {
            Why::Attempt(culprit) => Cause::of(culprit),
            Why::Register(_) | Why::Need(_, _) => Cause::Registers,
        }
    }
}
