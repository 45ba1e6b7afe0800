//! The lines of the intervals that are tried.

ghost use Rattle.std.specs.Prelude.{◌≡◌, ◌++◌, ℕ, List, Vec, map, IfOk, OnOk};
ghost use Rattle.std.specs.Global.{Global};
ghost use Rattle.solutions.specs.Outcomes.{first_of};
ghost use Rattle.solutions.specs.Told.{IsTold};
ghost use Rattle.reason_lines.specs.Least.{least_line};
ghost use Rattle.reason_lines.specs.Runs.{runs_text};
ghost use Rattle.problem_reasons.specs.Tries.{AreTries, IsEnd, hold_line, met_line, why_text};

use crate::hold::{Hold, hold_of};
use machine_data::OutOfMemory;
use problems::{Draft, Problem};
use reason_lines::{is_least_possible, push_least, push_runs};
use solution_text::push_cause;
use solutions::{Failure, Outcome, Told};
use std::alloc::Global;
use writing::{Text, push_both, push_told};

/// What is told of an interval that gives no solution: the cause and its culprits.
fn why_of(alloc: Global, draft: &Draft, failure: &Failure) -> Result<Vec<u8>, OutOfMemory>
    ensures ok { IfOk result (λ why. why.items ≡ why_text draft.now failure.now) }
{
    let mut why = Vec::new(alloc);
    why.push_piece(" ")?;
    push_cause(&mut why, draft, failure.cause, failure.culprit.as_ref())?;
    Ok(why)
}

/// What is told of each interval that gives no solution.
fn whys_of(alloc: Global, draft: &Draft, failures: &[Failure]) -> Result<Vec<Vec<u8>>, OutOfMemory>
    ensures ok { IfOk result (λ whys. map (λ (why : Vec ℕ Global). why.items) whys.items ≡ map (why_text draft.now) failures.now) }
{
    let mut whys = Vec::with_capacity(alloc, failures.len())?;
    for failure in failures {
        whys.push(why_of(alloc, draft, failure)?)?;
    }
    Ok(whys)
}

/// Appends the lines of the intervals, from the least one on, that give no solution.
fn push_failures(
    alloc: Global,
    text: &mut Vec<u8>,
    problem: &Problem,
    failures: &[Failure],
) -> Result<(), OutOfMemory>
    ensures ok { OnOk result (text.new.items ≡ text.old.items ++ runs_text (first_of problem.now) (map (why_text problem.now.draft) failures.now)) }
{
    let whys = whys_of(alloc, problem.draft(), failures)?;
    push_runs(text, problem.scheduling().mii(), whys.as_slice())
}

/// Appends the line of an interval, in cycles, that gives a solution of `stages` stages.
fn push_met_line(text: &mut Vec<u8>, interval: u64, stages: u64) -> Result<(), OutOfMemory>
    ensures ok { OnOk result (text.new.items ≡ text.old.items ++ met_line interval stages) }
{
    push_told(text, "try ", interval)?;
    push_told(text, " solution stages ", stages)?;
    text.push_piece("\n")
}

/// Appends the line of what holds an interval.
fn push_hold(text: &mut Vec<u8>, hold: Hold) -> Result<(), OutOfMemory>
    ensures ok { OnOk result (text.new.items ≡ text.old.items ++ hold_line hold) }
{
    push_both(text, "held by ", hold.word())?;
    text.push_piece("\n")
}

/// Appends the lines of an interval, in cycles, that gives a solution of `stages` stages.
fn push_met(
    text: &mut Vec<u8>,
    interval: u64,
    stages: u64,
    hold: Hold,
    least: bool,
) -> Result<(), OutOfMemory>
    ensures ok { OnOk result (text.new.items ≡ text.old.items ++ ((met_line interval stages ++ hold_line hold) ++ least_line least)) }
{
    push_met_line(text, interval, stages)?;
    push_hold(text, hold)?;
    push_least(text, least)
}

/// Appends the lines of the interval that gives a solution, if one does.
fn push_end(
    text: &mut Vec<u8>,
    problem: &Problem,
    need: u16,
    told: &Told,
) -> Result<(), OutOfMemory>
    requires { IsTold problem.now told.now }
    ensures ok { OnOk result ((end : List ℕ) × IsEnd problem.now need told.now.outcome end × (text.new.items ≡ text.old.items ++ end)) }
{
    match &told.outcome {
        Outcome::Met(solution) => {
            let ii = solution.ii();
            let hold = hold_of(problem, told.failures.as_slice());
            let least = is_least_possible(need, problem.scheduling().recurrences(), ii);
            push_met(text, ii, solution.stages(), hold, least)
        }
        Outcome::Failed(_) => Ok(()),
    }
}

/// Appends what each interval gives that was tried, until one gave a solution. The fullest set of units needs an interval of `need` cycles.
pub(crate) fn push_tries(
    alloc: Global,
    text: &mut Vec<u8>,
    problem: &Problem,
    need: u16,
    told: &Told,
) -> Result<(), OutOfMemory>
    requires { IsTold problem.now told.now }
    ensures ok { OnOk result ((tries : List ℕ) × AreTries problem.now need told.now.outcome tries × (text.new.items ≡ text.old.items ++ tries)) }
{
    push_failures(alloc, text, problem, told.failures.as_slice())?;
    push_end(text, problem, need, told)
}
