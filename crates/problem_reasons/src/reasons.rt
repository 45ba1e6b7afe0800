//! Why a problem has its interval.

ghost use Rattle.std.specs.Prelude.{◌≡◌, ℕ, List, ◌++◌, IfOk};
ghost use Rattle.solutions.specs.Told.{IsTold};
ghost use Rattle.problem_reasons.specs.Reasons.{AreReasons};

use crate::circuit::push_circuit;
use crate::sets::push_set;
use crate::tries::push_tries;
use crate::units::push_units;
use machine_data::OutOfMemory;
use outcome_text::is_met;
use problem_graphs::push_problem_line;
use problems::Problem;
use solution_text::push_outcome;
use solutions::Told;
use std::alloc::Global;

/// Appends why a problem has its interval, in cycles: its [line of bounds](problem_graphs::push_problem_line); the units that it uses by the
/// choices of the resource-constrained bound, with the operations that use them; the fullest set of units; a circuit that the
/// recurrence-constrained bound is due to, with its edges, where the bound is above 1; each interval that was tried and gives no solution,
/// with its cause and what is after it, in one line where neighbouring ones have the same; the interval that gives one, and what holds it,
/// with the line `least possible` where it is what the recurrences or the fullest set of units need; and that solution, or why the
/// last interval gives none, as [`push_outcome`](solution_text::push_outcome) tells it. All that was found beforehand, by
/// [`solve_told`](solutions::solve_told). The result is whether there is a solution.
///
/// # Errors
/// Memory ran out. The text is left with a part of all that.
pub fn push_reasons(
    alloc: Global,
    text: &mut Vec<u8>,
    name: &str,
    problem: &Problem,
    told: &Told,
) -> Result<bool, OutOfMemory>
    requires { IsTold problem.now told.now }
    ensures told { IfOk result (λ met. (part : List ℕ) × AreReasons name.now problem.now met part × (text.new.items ≡ text.old.items ++ part)) }
{
    push_problem_line(text, name, problem)?;
    push_units(alloc, text, problem)?;
    let set = push_set(alloc, text, problem)?;
    push_circuit(alloc, text, problem)?;
    push_tries(alloc, text, problem, set.need, told)?;
    push_outcome(text, name, &[], problem, &told.outcome, told.culprit())?;
    Ok(is_met(&told.outcome))
}
