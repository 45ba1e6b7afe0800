//! The text of whatever a problem gives.

ghost use Rattle.std.specs.Prelude.{◌≡◌, ◌++◌, ℕ, List, OnOk};
ghost use Rattle.std.specs.Option.{option_copied};
ghost use Rattle.solutions.specs.Told.{IsLastEvidence};
ghost use Rattle.solution_text.specs.Outcomes.{IsOutcomeText};

use crate::failures::push_failed;
use crate::solved::push_solution;
use machine_data::OutOfMemory;
use modulo::Culprit;
use problems::Problem;
use solutions::Outcome;

/// Appends the text of what a problem gives, as [`solve_with_culprit`](solutions::solve_with_culprit) or
/// [`solve_told`](solutions::solve_told) found it: its bounds, other lines on it that are given as they are, and its solution, or why
/// the last interval that was tried gives none and its culprits.
///
/// # Errors
/// [`OutOfMemory`] where memory ran out. The text is left with a part of all that.
pub fn push_outcome(
    text: &mut Vec<u8>,
    name: &str,
    notes: &[u8],
    problem: &Problem,
    outcome: &Outcome,
    culprit: Option<&Culprit>,
) -> Result<(), OutOfMemory>
    requires { IsLastEvidence problem.now outcome.now (option_copied culprit) }
    ensures ok { OnOk result ((part : List ℕ) × IsOutcomeText name.now notes.now problem.now outcome.now part × (text.new.items ≡ text.old.items ++ part)) }
{
    match outcome {
        Outcome::Met(solution) => push_solution(text, name, notes, solution),
        Outcome::Failed(cause) => push_failed(text, name, notes, problem, *cause, culprit),
    }
}
