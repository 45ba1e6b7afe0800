//! What holds the interval of a problem.

ghost use Rattle.std.specs.Prelude.{◌≡◌, ◌≤◌, ◌-◌, ℕ};
ghost use Rattle.std.specs.List.{AllZip, range_with_len};
ghost use Rattle.solutions.specs.Failures.{FailsFor};
ghost use Rattle.solutions.specs.Outcomes.{first_of};
ghost use Rattle.problem_reasons.specs.Holds.{IsHold, hold_word};

use problems::Problem;
use solution_text::cause_word;
use solutions::{Cause, Failure};

/// Why a problem has no solution at a shorter interval than its own.
#[derive(Clone, Copy, PartialEq, Eq)]
pub enum Hold {
    /// The units need the interval, and the recurrences a shorter one.
    Units,
    /// The recurrences need the interval, and the units a shorter one.
    Recurrences,
    /// Both need the interval, which is longer than one cycle.
    Both,
    /// The interval is one cycle, and neither bound is longer.
    Cycle,
    /// The interval is above both bounds: one cycle less gives no solution, by this cause.
    Failure(Cause),
}

impl Hold {
    /// The hold's word, as `units`; that of its cause where there is one.
    pub fn word(self) -> &'static str
        ensures { result.now ≡ hold_word self }
    {
        match self {
            Hold::Units => "units",
            Hold::Recurrences => "recurrences",
            Hold::Both => "both",
            Hold::Cycle => "one cycle",
            Hold::Failure(cause) => cause_word(cause),
        }
    }
}

/// What holds an interval, by the failures of those before it, from the first one on.
pub(crate) fn hold_of(problem: &Problem, failures: &[Failure]) -> Hold
    ensures { (ii : ℕ) → first_of problem.now ≤ ii → AllZip (FailsFor problem.now) (range_with_len (first_of problem.now) (ii - first_of problem.now)) failures.now
        → IsHold problem.now ii result }
{
    match failures.last() {
        Some(failure) => Hold::Failure(failure.cause),
        None => bound_of(problem),
    }
}

/// Which of the two bounds holds the first interval.
fn bound_of(problem: &Problem) -> Hold
    ensures { IsHold problem.now (first_of problem.now) result }
{
    let scheduling = problem.scheduling();
    let resources = scheduling.resources();
    let recurrences = scheduling.recurrences();
    if resources < recurrences {
        Hold::Recurrences
    } else if recurrences < resources {
        Hold::Units
    } else if recurrences == 1 {
        Hold::Cycle
    } else {
        Hold::Both
    }
}
