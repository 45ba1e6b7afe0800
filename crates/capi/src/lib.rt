//! The library for C: problems in arrays are solved or judged, and what commands print of texts is handed over.
//!
//! A problem of the caller's arrays is made a draft (`IsDraftOf`) and solved (`AnswersSolve`). Each argument is tested,
//! so that no call has a condition that types do not state. A call with texts hands over what the program prints of
//! them, or the line with which it refuses them, by the definitions of `engine` (`AnswersTexts`). The header is
//! `include/modsched.h`, written by hand.
#![tactic(auto)]

ghost use Rattle.std.specs.Prelude.{◌≡◌, ◌≤◌, length, IfOk, MatchResult};
ghost use Rattle.machine_data.specs.declared.limits.TheConstants.{MAX_CEILING, MAX_RATIO};
ghost use Rattle.problems.specs.Problems.{IsProblemOf};
ghost use Rattle.problems.specs.Faults.{first_fault_of};
ghost use Rattle.solutions.specs.Outcomes.{IsSolved};
ghost use Rattle.solutions.specs.Runs.{IsRightOutcome};
ghost use Rattle.capi.specs.Given.{IsDraftOf};
ghost use Rattle.capi.specs.Calls.{AnswersSolve, EndsBy, Arrays, IsWritten, misfit_of, Tells};

mod answer;
mod checking;
mod drafting;
mod given;
mod tasks;
mod telling;
mod texts;
mod verdict;

pub use answer::{Answer, FaultNumbers};
use answer::{failed_answer, fault_answer, met_answer, misfit_answer, nothing};
pub use checking::modsched_check;
use drafting::draft_of;
pub use given::{Hold, Kind, Order, Problem, Read, Value};
use problems::Refusal;
use settings::Settings;
use solutions::{Outcome, Solution, solve};
use std::alloc::Global;
pub use telling::Told;
use texts::search_misfit;
pub use texts::{
    modsched_bounds, modsched_dot, modsched_edges, modsched_explain, modsched_json, modsched_plain,
    modsched_run, modsched_schedule,
};
pub use verdict::Verdict;

/// Solves a problem, at each interval with at most `ratio`, 1 to 64, times as many placements as operations, and at most `ceiling`
/// intervals above the least one, 0 to 255. Where there is a solution, it writes the issue time of each operation, in
/// cycles, the number of the alternative of each, from 0, and of each value the number of its register.
///
/// 0: solved. 1: no interval gives a solution. 2: a setting is out of its range, or an array is too short. 5: the
/// problem is at fault. 7: memory ran out, which says nothing of the problem. Arrays are written with status 0 only.
#[unsafe(no_mangle)]
pub extern "C" fn modsched_solve(
    alloc: Global,
    problem: &Problem<'_>,
    ratio: u64,
    ceiling: u64,
    times: &mut [u64],
    alternatives: &mut [u64],
    numbers: &mut [u64],
    answer: &mut Answer,
) -> u32
    ensures { AnswersSolve problem.now ratio ceiling
        (record { times = times.old; alternatives = alternatives.old; numbers = numbers.old })
        (record { times = times.new; alternatives = alternatives.new; numbers = numbers.new })
        answer.new result }
{
    *answer = nothing();
    let room = [times.len(), alternatives.len(), numbers.len()];
    let misfit = misfit_of(problem, ratio, ceiling, room[0], room[1], room[2]);
    if misfit != 0 {
        *answer = misfit_answer(misfit);
        return 2;
    }
    match problem_of(alloc, problem, ratio, ceiling) {
        Ok(problem) => match solve(alloc, &problem) {
            Ok(outcome) => tell(&problem, &outcome, times, alternatives, numbers, answer),
            Err(_) => 7,
        },
        Err(Refusal::Fault(fault)) => {
            *answer = fault_answer(fault);
            5
        }
        Err(Refusal::Memory(_)) => 7,
    }
}

/// Which argument is out of its range or too short, and 0 where none is.
fn misfit_of(
    problem: &Problem<'_>,
    ratio: u64,
    ceiling: u64,
    times: usize,
    alternatives: usize,
    numbers: usize,
) -> u64
    ensures { result ≡ misfit_of problem.now ratio ceiling times alternatives numbers }
{
    let misfit = search_misfit(ratio, ceiling);
    if misfit != 0 {
        return misfit;
    }
    if times < problem.operations.len() {
        return 3;
    }
    if alternatives < problem.operations.len() {
        return 4;
    }
    if numbers < problem.values.len() {
        return 5;
    }
    0
}

/// The settings of these numbers.
fn settings_of(ratio: u64, ceiling: u64) -> Settings
    requires some { 1 ≤ ratio }
    requires few { ratio ≤ MAX_RATIO }
    requires ceiling { ceiling ≤ MAX_CEILING }
    ensures ratio { result.ratio ≡ ratio }
    ensures ceiling { result.ceiling ≡ ceiling }
{
    match Settings::new(ratio, ceiling, 1, 1) {
        Ok(settings) => settings,
        Err(_) => unreachable!(),
    }
}

/// The problem that a caller gives.
fn problem_of(
    alloc: Global,
    problem: &Problem<'_>,
    ratio: u64,
    ceiling: u64,
) -> Result<problems::Problem, Refusal>
    requires some { 1 ≤ ratio }
    requires few { ratio ≤ MAX_RATIO }
    requires ceiling { ceiling ≤ MAX_CEILING }
    ensures { EndsBy problem.now ratio ceiling result }
{
    let draft = draft_of(alloc, problem)?;
    problems::Problem::new(alloc, draft, &settings_of(ratio, ceiling))
}

/// Writes an outcome for the caller, and gives its status.
fn tell(
    problem: &problems::Problem,
    outcome: &Outcome<'_>,
    times: &mut [u64],
    alternatives: &mut [u64],
    numbers: &mut [u64],
    answer: &mut Answer,
) -> u32
    requires solved { IsSolved problem.now outcome.now }
    requires right { IsRightOutcome outcome.now }
    requires times { length problem.now.draft.operations.items ≤ length times.old }
    requires alternatives { length problem.now.draft.operations.items ≤ length alternatives.old }
    requires numbers { length problem.now.draft.values.items ≤ length numbers.old }
    ensures { Tells problem.now
        (record { times = times.old; alternatives = alternatives.old; numbers = numbers.old })
        (record { times = times.new; alternatives = alternatives.new; numbers = numbers.new })
        answer.new result outcome.now }
{
    match outcome {
        Outcome::Met(solution) => {
            fill_times(solution, times);
            fill_alternatives(solution, alternatives);
            fill_numbers(solution, numbers);
            *answer = met_answer(problem, solution);
            0
        }
        Outcome::Failed(cause) => {
            *answer = failed_answer(problem, *cause);
            1
        }
    }
}

/// Writes the issue time of each operation.
fn fill_times(solution: &Solution<'_>, times: &mut [u64])
    requires { length solution.now.problem.scheduling.operations ≤ length times.old }
    ensures { IsWritten solution.now.times times.old times.new }
{
    for op in 0..solution.problem().scheduling().operations() {
        times[op] = solution.time(op);
    }
}

/// Writes the alternative of each operation.
fn fill_alternatives(solution: &Solution<'_>, alternatives: &mut [u64])
    requires { length solution.now.problem.scheduling.operations ≤ length alternatives.old }
    ensures { IsWritten solution.now.choices alternatives.old alternatives.new }
{
    for op in 0..solution.problem().scheduling().operations() {
        alternatives[op] = solution.alternative(op) as u64;
    }
}

/// Writes the number of each value.
fn fill_numbers(solution: &Solution<'_>, numbers: &mut [u64])
    requires { length solution.now.problem.draft.values.items ≤ length numbers.old }
    ensures { IsWritten solution.now.numbers numbers.old numbers.new }
{
    for value in 0..solution.problem().draft().values.len() {
        numbers[value] = solution.number(value) as u64;
    }
}
