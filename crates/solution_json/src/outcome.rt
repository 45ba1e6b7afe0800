//! What a problem comes to.

ghost use Rattle.std.specs.Prelude.{◌≡◌, ◌≤◌, ◌++◌, ℕ, List, false, length, IfOk, OnOk};
ghost use Rattle.std.specs.Option.{option_copied};
ghost use Rattle.machine_data.specs.declared.limits.TheConstants.{MAX_STATEMENTS};
ghost use Rattle.serde_json.specs.View.{members_view, view};
ghost use Rattle.serde_json.specs.Written.{compact_text, has_float};
ghost use Rattle.solutions.specs.Told.{IsLastEvidence, IsSearched};
ghost use Rattle.solution_json.specs.Outcomes.{IsJsonOf, IsObjectOf, IsOutcomeJson, failed_object, head_members, met_object};

use crate::bounds::told_circuit;
use crate::failures::told_evidence;
use crate::members::{object_of, with, with_count};
use crate::solved::told_solution;
use crate::told::told_names;
use edges::Edge;
use machine_data::OutOfMemory;
use modulo::Culprit;
use outcome_text::{circuit_of, fullest_of, is_met};
use problems::Problem;
use serde_json::{Map, ToValue, Value};
use solution_text::cause_word;
use solutions::{Cause, Outcome, Solution, Solved};
use std::alloc::Global;

/// The members that tell the bounds of a problem, and what they are due to.
fn head_of(
    alloc: Global,
    name: &str,
    problem: &Problem,
    circuit: &[Edge],
    units: &[usize],
) -> Result<Map<String, Value>, OutOfMemory>
    requires few { length circuit.now ≤ MAX_STATEMENTS }
    ensures { IfOk result (λ m. members_view m.entries ≡ head_members name.now problem.now circuit.now units.now) }
{
    let draft = problem.draft();
    let scheduling = problem.scheduling();
    let circuit = told_circuit(alloc, draft, circuit);
    let full = told_names(alloc, draft.names.units.as_slice(), units);
    let members = with(alloc, Ok(Map::new(alloc)), "name", name.to_value(alloc));
    let members = with_count(alloc, members, "operations", scheduling.operations() as u64);
    let members = with_count(alloc, members, "resources", scheduling.resources());
    let members = with_count(alloc, members, "recurrences", scheduling.recurrences());
    let members = with_count(alloc, members, "mii", scheduling.mii());
    let members = with(alloc, members, "circuit", circuit);
    with(alloc, members, "full", full)
}

/// A problem that is solved.
fn told_met(
    alloc: Global,
    name: &str,
    problem: &Problem,
    circuit: &[Edge],
    units: &[usize],
    solution: &Solution,
) -> Result<Value, OutOfMemory>
    requires few { length circuit.now ≤ MAX_STATEMENTS }
    ensures { IfOk result (λ v. view v ≡ met_object name.now problem.now circuit.now units.now solution.now) }
{
    let head = head_of(alloc, name, problem, circuit, units);
    let solution = told_solution(alloc, solution);
    object_of(with(alloc, head, "solution", solution))
}

/// A problem that has no solution.
fn told_failed(
    alloc: Global,
    name: &str,
    problem: &Problem,
    circuit: &[Edge],
    units: &[usize],
    cause: Cause,
    culprit: Option<&Culprit>,
) -> Result<Value, OutOfMemory>
    requires few { length circuit.now ≤ MAX_STATEMENTS }
    ensures { IfOk result (λ v. view v ≡ failed_object name.now problem.now circuit.now units.now cause (option_copied culprit.entry)) }
{
    let scheduling = problem.scheduling();
    let last = scheduling.mii() + scheduling.ceiling();
    let culprit = told_evidence(alloc, problem.draft(), cause, culprit);
    let members = head_of(alloc, name, problem, circuit, units);
    let members = with_count(alloc, members, "failed_to", last);
    let members = with(alloc, members, "cause", cause_word(cause).to_value(alloc));
    object_of(with(alloc, members, "culprit", culprit))
}

/// An outcome of a problem; of one that has no solution with the culprits of the cause.
fn told_outcome(
    alloc: Global,
    name: &str,
    problem: &Problem,
    circuit: &[Edge],
    units: &[usize],
    outcome: &Outcome,
    culprit: Option<&Culprit>,
) -> Result<Value, OutOfMemory>
    requires few { length circuit.now ≤ MAX_STATEMENTS }
    requires evidence { IsLastEvidence problem.now outcome.now (option_copied culprit) }
    ensures { IfOk result (λ v. IsObjectOf name.now problem.now circuit.now units.now outcome.now (view v)) }
{
    match outcome {
        Outcome::Met(solution) => told_met(alloc, name, problem, circuit, units, solution),
        Outcome::Failed(cause) => {
            told_failed(alloc, name, problem, circuit, units, *cause, culprit)
        }
    }
}

/// Appends a value as JSON without blanks.
fn push_value(alloc: Global, text: &mut Vec<u8>, value: &Value) -> Result<(), OutOfMemory>
    ensures { OnOk result (has_float (view value.now) ≡ false → text.new.items ≡ text.old.items ++ compact_text (view value.now)) }
{
    let bytes = value.to_vec(alloc)?;
    text.extend_from_slice(bytes.as_slice())
}

/// Appends an outcome of a problem, with what the bounds are due to.
fn push_told(
    alloc: Global,
    text: &mut Vec<u8>,
    name: &str,
    problem: &Problem,
    outcome: &Outcome,
    culprit: Option<&Culprit>,
) -> Result<(), OutOfMemory>
    requires { IsLastEvidence problem.now outcome.now (option_copied culprit) }
    ensures { OnOk result ((answer : List ℕ) × (text.new.items ≡ text.old.items ++ answer) × IsJsonOf name.now problem.now outcome.now answer) }
{
    let circuit = circuit_of(alloc, problem.scheduling())?;
    let units = fullest_of(alloc, problem)?;
    let told = told_outcome(
        alloc,
        name,
        problem,
        circuit.as_slice(),
        units.as_slice(),
        outcome,
        culprit,
    )?;
    push_value(alloc, text, &told)
}

/// Appends what a problem comes to, as [`solve_with_culprit`](solutions::solve_with_culprit) solved it, as a JSON object without blanks: its
/// bounds with a critical circuit and the fullest units, and its solution, or why there is none. The result is whether it is solved.
///
/// # Errors
/// Memory ran out. The text is left with a part of all that.
pub fn push_outcome_json(
    alloc: Global,
    text: &mut Vec<u8>,
    name: &str,
    problem: &Problem,
    solved: &Solved,
) -> Result<bool, OutOfMemory>
    requires { IsSearched problem.now solved.now }
    ensures told { IfOk result (λ met. (answer : List ℕ) × (text.new.items ≡ text.old.items ++ answer) × IsOutcomeJson name.now problem.now met answer) }
{
    push_told(
        alloc,
        text,
        name,
        problem,
        &solved.outcome,
        solved.culprit.as_ref(),
    )?;
    Ok(is_met(&solved.outcome))
}
