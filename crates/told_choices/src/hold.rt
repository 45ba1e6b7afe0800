//! What holds the interval of a loop.

ghost use Rattle.std.specs.Prelude.{◌≡◌, ◌≤◌, ◌-◌, ℕ};
ghost use Rattle.std.specs.List.{AllZip, range_with_len};
ghost use Rattle.loop_schedules.specs.Problems.{mii_of};
ghost use Rattle.told_choices.specs.Holds.{IsHold, bound_hold, hold_by, hold_word};
ghost use Rattle.told_choices.specs.Whys.{FailsAs};

use crate::why::Why;
use candidates::Cause;
use loop_schedules::Prepared;

/// Why a loop has no kernel at a shorter interval than its own.
#[derive(Clone, Copy, PartialEq, Eq)]
pub enum Hold {
    /// The units of the machine need the interval, and the recurrences a shorter one.
    Units,
    /// The recurrences need the interval, and the units of the machine a shorter one.
    Recurrences,
    /// Both need the interval.
    Both,
    /// The interval is one cycle, and no circuit of dependences needs it.
    Cycle,
    /// The interval is above both bounds: one cycle less gives no kernel, by this cause.
    Failure(Cause),
}

impl Hold {
    /// The hold's word, as `units`; that of its cause where there is one.
    pub fn word(self) -> &'static str
        ensures { result.now ≡ hold_word self }
    {
        match self {
            Hold::Units => "units",
            Hold::Recurrences => "recurrences",
            Hold::Both => "both",
            Hold::Cycle => "one cycle",
            Hold::Failure(cause) => cause.word(),
        }
    }
}

/// What holds an interval, by the reasons of those before it that were tried, from the least one on; `free` tells that no circuit
/// needs the recurrence-constrained bound.
pub fn hold_of(prepared: &Prepared, free: bool, reasons: &[Why]) -> Hold
    ensures value { result ≡ hold_by prepared.now free reasons.now }
    ensures is { (ii : ℕ) → mii_of prepared.now ≤ ii → AllZip (FailsAs prepared.now) (range_with_len (mii_of prepared.now) (ii - mii_of prepared.now)) reasons.now
        → IsHold prepared.now free ii result }
{
    match reasons.last() {
        Some(reason) => Hold::Failure(reason.cause()),
        None => bound_of(prepared, free),
    }
}

/// Which of the two bounds holds the least interval that is tried.
fn bound_of(prepared: &Prepared, free: bool) -> Hold
    ensures value { result ≡ bound_hold prepared.now free }
    ensures is { IsHold prepared.now free (mii_of prepared.now) result }
{
    let resources = prepared.resources();
    let recurrences = prepared.recurrences();
    if resources < recurrences {
        Hold::Recurrences
    } else if recurrences < resources {
        Hold::Units
    } else if free {
        Hold::Cycle
    } else {
        Hold::Both
    }
}
