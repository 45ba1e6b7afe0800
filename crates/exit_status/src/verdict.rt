//! What a text that is written tells.

ghost use Rattle.std.specs.Prelude.{◌≡◌};
ghost use Rattle.exit_status.specs.Writing.{verdict_of_met};

/// What a text that is written tells, which settles the status where it is written whole.
#[derive(Clone, Copy, PartialEq, Eq)]
pub enum Verdict {
    /// Every loop or problem is met, and no text has a fault.
    Fine,
    /// Some loop or problem is not met.
    Unmet,
    /// The machine's text has a fault.
    MachineFaulty,
    /// The loops' text has a fault, and the machine's has none.
    LoopsFaulty,
}

impl Verdict {
    /// What is told by a text of loops or problems that are all met, or not.
    pub fn of_met(all_met: bool) -> Verdict
        ensures { result ≡ verdict_of_met all_met }
    {
        if all_met {
            Verdict::Fine
        } else {
            Verdict::Unmet
        }
    }
}
