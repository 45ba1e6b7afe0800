//! What a problem comes to.

ghost use Rattle.std.specs.Prelude.{◌≡◌, ℕ, List, ◌++◌, IfOk};
ghost use Rattle.solutions.specs.Told.{IsSearched};
ghost use Rattle.outcome_text.specs.Answers.{IsOutcomeText, is_met};

use crate::notes::notes_of;
use machine_data::OutOfMemory;
use problems::Problem;
use solutions::{Outcome, Solved};
use std::alloc::Global;

/// Whether an outcome is a solution.
pub fn is_met(outcome: &Outcome) -> bool
    ensures { result ≡ is_met outcome.now }
{
    match outcome {
        Outcome::Met(_) => true,
        Outcome::Failed(_) => false,
    }
}

/// Appends what a problem comes to, as [`solve_with_culprit`](solutions::solve_with_culprit) solved it: its bounds with a critical circuit and
/// the fullest units, and its solution, or why there is none. The result is whether it is solved.
///
/// # Errors
/// Memory ran out. The text is left with a part of all that.
pub fn push_outcome(
    alloc: Global,
    text: &mut Vec<u8>,
    name: &str,
    problem: &Problem,
    solved: &Solved,
) -> Result<bool, OutOfMemory>
    requires { IsSearched problem.now solved.now }
    ensures told { IfOk result (λ met. (answer : List ℕ) × (text.new.items ≡ text.old.items ++ answer) × IsOutcomeText name.now problem.now met answer) }
{
    let notes = notes_of(alloc, problem)?;
    let outcome = &solved.outcome;
    solution_text::push_outcome(
        text,
        name,
        notes.as_slice(),
        problem,
        outcome,
        solved.culprit.as_ref(),
    )?;
    Ok(is_met(outcome))
}
