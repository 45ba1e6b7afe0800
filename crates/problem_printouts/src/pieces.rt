//! What solving one problem comes to.

ghost use Rattle.std.specs.Prelude.{◌≡◌, ◌<◌, ◌++◌, ℕ, List, length, IfOk};
ghost use Rattle.problem_reader.specs.Files.{problem_at};
ghost use Rattle.solutions.specs.Told.{IsSearched};
ghost use Rattle.problem_printouts.specs.Solving.{IsAnswer, IsOutcomeIn};
ghost use Rattle.problem_printouts.specs.inner.Sofar.{IsOneMore};

use crate::making::problem_by;
use machine_data::OutOfMemory;
use outcome_text::push_outcome;
use problem_reader::{KeptDrafts, ProblemFile};
use problems::Problem;
use settings::{Format, Settings};
use solution_json::push_outcome_json;
use solutions::{Solved, solve_with_culprit};
use std::alloc::Global;

/// Appends what a problem comes to in this format. The result is whether it is solved.
fn push_outcome_in(
    alloc: Global,
    text: &mut Vec<u8>,
    name: &str,
    problem: &Problem,
    solved: &Solved,
    format: Format,
) -> Result<bool, OutOfMemory>
    requires { IsSearched problem.now solved.now }
    ensures told { IfOk result (λ met. (answer : List ℕ) × (text.new.items ≡ text.old.items ++ answer) × IsOutcomeIn format name.now problem.now met answer) }
{
    match format {
        Format::Text => push_outcome(alloc, text, name, problem, solved),
        Format::Json => push_outcome_json(alloc, text, name, problem, solved),
    }
}

/// Solves a problem, and appends what it comes to in this format. The result is whether it is solved.
fn push_solved(
    alloc: Global,
    text: &mut Vec<u8>,
    name: &str,
    problem: &Problem,
    format: Format,
) -> Result<bool, OutOfMemory>
    ensures told { IfOk result (λ met. (answer : List ℕ) × (text.new.items ≡ text.old.items ++ answer) × IsOutcomeIn format name.now problem.now met answer) }
{
    let solved = solve_with_culprit(alloc, problem)?;
    push_outcome_in(alloc, text, name, problem, &solved, format)
}

/// Solves a problem of a file, and appends what it comes to in this format. The result is whether it is solved. The problems of the
/// file are made by `drafts`.
pub(crate) fn push_answer(
    alloc: Global,
    text: &mut Vec<u8>,
    file: &ProblemFile,
    drafts: &mut KeptDrafts<'_>,
    number: usize,
    settings: &Settings,
    format: Format,
) -> Result<bool, OutOfMemory>
    requires there { number < length file.now.problems }
    requires drafts { drafts.old ≡ file.now }
    ensures same { drafts.new ≡ drafts.old }
    ensures answer { IfOk result (IsOneMore (IsAnswer file.now settings.now format (problem_at file.now number)) text.old.items text.new.items) }
{
    let problem = problem_by(alloc, drafts, number, settings)?;
    let met = push_solved(alloc, text, file.name(number).as_str(), &problem, format)?;
    drafts.give_back(number, problem.into_draft());
    Ok(met)
}
