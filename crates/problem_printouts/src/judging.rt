//! What is printed where solutions of the problems of a text are checked.

ghost use Rattle.std.specs.Prelude.{◌≡◌, ◌<◌, length, IfOk};
ghost use Rattle.problem_reader.specs.Files.{problem_at};
ghost use Rattle.solution_reader.specs.Resolved.{numbers_told, places_told, solution_at};
ghost use Rattle.solution_text.specs.Verdicts.{missing_text};
ghost use Rattle.problem_printouts.specs.Judging.{AnswersCheck, IsCheckText, IsJudged, IsNumbered, IsPlaced, IsRefused, IsVerdict, solution_named};
ghost use Rattle.problem_printouts.specs.inner.Judged.{AnswersLists, IsCheckedLists};
ghost use Rattle.problem_printouts.specs.inner.Sofar.{IsOneMore};

use crate::answers::Answers;
use crate::making::problem_in;
use crate::unknown::first_unknown;
use crate::walk::{Teller, push_all};
use machine_data::OutOfMemory;
use problem_faults::ProblemsFault;
use problem_reader::{ProblemFile, read_problems};
use problems::{Label, Problem};
use settings::Settings;
use solution_reader::{SolutionFile, read_solutions};
use solution_text::{Missing, push_broken, push_missing, push_ok};
use solutions::Solution;
use std::alloc::Global;

/// The settings of problems that are checked. They change nothing of what is lawful.
pub(crate) fn settings() -> Settings
    ensures { result ≡ record { ratio = 6; ceiling = 32; workers = 1; cut = 1 } }
{
    match Settings::new(6, 32, 1, 1) {
        Ok(settings) => settings,
        Err(_) => unreachable!(),
    }
}

/// Appends that a problem has no solution, for something that is missing. The result is that it is not met.
fn push_lack(
    text: &mut Vec<u8>,
    name: &str,
    problem: &Problem,
    missing: Missing,
) -> Result<bool, OutOfMemory>
    ensures { IfOk result (IsOneMore (IsRefused name.now (missing_text problem.now.draft missing)) text.old.items text.new.items) }
{
    push_missing(text, name, problem.draft(), missing)?;
    Ok(false)
}

/// Appends what a check says of lists. The result is whether they are a solution.
fn push_checked(
    alloc: Global,
    text: &mut Vec<u8>,
    name: &str,
    problem: &Problem,
    ii: u64,
    places: &[(u64, usize)],
    numbers: &[usize],
) -> Result<bool, OutOfMemory>
    ensures { IfOk result (IsOneMore (IsCheckedLists problem.now name.now ii places.now numbers.now) text.old.items text.new.items) }
{
    match Solution::check(alloc, problem, ii, places, numbers)? {
        Ok(solution) => {
            push_ok(text, name, &solution)?;
            Ok(true)
        }
        Err(broken) => {
            push_broken(text, name, problem.draft(), ii, broken)?;
            Ok(false)
        }
    }
}

/// Appends what a check says of a solution whose places are these. The result is whether it is one.
fn push_numbered(
    alloc: Global,
    text: &mut Vec<u8>,
    name: &str,
    problem: &Problem,
    list: &SolutionFile<'_>,
    number: usize,
    places: &[(u64, usize)],
) -> Result<bool, OutOfMemory>
    requires { number < length list.now }
    ensures { IfOk result (IsOneMore (IsNumbered problem.now name.now (solution_at list.now number).head.ii places.now (numbers_told (solution_at list.now number) problem.now.draft)) text.old.items text.new.items) }
{
    match list.numbers(alloc, number, problem.draft())? {
        Ok(numbers) => push_checked(
            alloc,
            text,
            name,
            problem,
            list.ii(number),
            places,
            numbers.as_slice(),
        ),
        Err(value) => push_lack(text, name, problem, Missing::Number(value)),
    }
}

/// Appends what a check says of a solution. The result is whether it is one.
fn push_placed(
    alloc: Global,
    text: &mut Vec<u8>,
    name: &str,
    problem: &Problem,
    list: &SolutionFile<'_>,
    number: usize,
) -> Result<bool, OutOfMemory>
    requires { number < length list.now }
    ensures { IfOk result (IsOneMore (IsPlaced problem.now name.now (solution_at list.now number) (places_told (solution_at list.now number) problem.now.draft)) text.old.items text.new.items) }
{
    match list.places(alloc, number, problem.draft())? {
        Ok(places) => push_numbered(alloc, text, name, problem, list, number, places.as_slice()),
        Err(op) => push_lack(text, name, problem, Missing::Time(op)),
    }
}

/// Appends what a check says of a problem. The result is whether it is met.
fn push_judged(
    alloc: Global,
    text: &mut Vec<u8>,
    name: &Label,
    problem: &Problem,
    list: &SolutionFile<'_>,
) -> Result<bool, OutOfMemory>
    ensures { IfOk result (IsOneMore (IsJudged problem.now name.now (solution_named list.now name.now)) text.old.items text.new.items) }
{
    match list.find(name) {
        Some(number) => push_placed(alloc, text, name.as_str(), problem, list, number),
        None => push_lack(text, name.as_str(), problem, Missing::Solution),
    }
}

/// Appends the verdict on a problem of a file. The result is whether it is met.
fn push_verdict(
    alloc: Global,
    text: &mut Vec<u8>,
    file: &ProblemFile,
    list: &SolutionFile<'_>,
    number: usize,
) -> Result<bool, OutOfMemory>
    requires { number < length file.now.problems }
    ensures { IfOk result (IsOneMore (IsVerdict file.now list.now (problem_at file.now number)) text.old.items text.new.items) }
{
    let problem = problem_in(alloc, file, number, &settings())?;
    push_judged(alloc, text, file.name(number), &problem, list)
}

/// The verdict on each problem.
#[derive(Drop)]
struct Checking<'a, 'b> {
    alloc: Global,
    file: &'a ProblemFile,
    list: &'a SolutionFile<'b>,
}

impl<'a, 'b> Teller for Checking<'a, 'b> {
    ghost use Rattle.problem_printouts.specs.inner.Asked.Question.{Check};

    ghost asked = { λ t. record { file = t.file.now; question = Check t.list.now } };

    ghost ready = { λ _. Unit {0} };

    fn problems(&self) -> usize {
        self.file.problems()
    }

    fn push(&mut self, text: &mut Vec<u8>, number: usize) -> Result<bool, OutOfMemory> {
        push_verdict(self.alloc, text, self.file, self.list, number)
    }
}

/// The verdicts on the problems of a file.
fn judged(
    alloc: Global,
    file: &ProblemFile,
    list: &SolutionFile<'_>,
) -> Result<Answers, OutOfMemory>
    ensures { IfOk result (IsCheckText file.now list.now) }
{
    let mut text = Vec::new(alloc);
    let met = push_all(&mut Checking { alloc, file, list }, &mut text)?;
    Answers::of(text, "# problems ", file.problems() as u64, met)
}

/// The verdicts on the problems of a file, if no name of the solutions is unknown.
fn checked(
    alloc: Global,
    file: &ProblemFile,
    list: &SolutionFile<'_>,
) -> Result<Answers, ProblemsFault>
    ensures { AnswersLists file.now list.now result }
{
    if let Some(fault) = first_unknown(alloc, file, list)? {
        return Err(ProblemsFault::Solutions(fault));
    }
    Ok(judged(alloc, file, list)?)
}

/// Checks a text of solutions of the problems of a text, and tells one line of each problem, in the order of their text: that the
/// solution of its name is one, what that breaks first, or what is missing; and at the end the line `# problems P met A failed B`.
/// A problem is met where its solution is one.
///
/// # Errors
/// [`ProblemsFault::Problems`] with the first fault of the text of problems; else [`ProblemsFault::Solutions`] with that of the text
/// of solutions, or with its first name that is unknown: that of a solution which no problem has, or of an operation or a value
/// which its problem lacks; and [`ProblemsFault::Memory`] where memory ran out.
pub fn check_printout(
    alloc: Global,
    problems: &[u8],
    solutions: &[u8],
) -> Result<Answers, ProblemsFault>
    ensures exact { AnswersCheck problems.now solutions.now result }
{
    let file = read_problems(alloc, problems)?;
    let list = read_solutions(alloc, solutions)?;
    checked(alloc, &file, &list)
}
