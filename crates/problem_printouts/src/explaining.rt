//! What is printed of the problems of a text as reasons for their intervals.

ghost use Rattle.std.specs.Prelude.{◌<◌, length, IfOk};
ghost use Rattle.problem_reader.specs.Files.{problem_at};
ghost use Rattle.problem_printouts.specs.Explaining.{AnswersExplain, IsExplainOf, IsReasonsAnswer};
ghost use Rattle.problem_printouts.specs.inner.Sofar.{IsOneMore};

use crate::answers::Answers;
use crate::making::problem_in;
use crate::walk::{Teller, push_all};
use machine_data::OutOfMemory;
use problem_faults::ProblemsFault;
use problem_reader::{ProblemFile, read_problems};
use problem_reasons::push_reasons;
use settings::Settings;
use solutions::solve_told;
use std::alloc::Global;

/// The reasons of each problem.
#[derive(Drop)]
struct Explaining<'a> {
    alloc: Global,
    file: &'a ProblemFile,
    settings: &'a Settings,
}

/// Solves a problem, and appends why it has its interval. The result is whether it has a solution.
fn push_reasons_of(
    alloc: Global,
    text: &mut Vec<u8>,
    file: &ProblemFile,
    number: usize,
    settings: &Settings,
) -> Result<bool, OutOfMemory>
    requires { number < length file.now.problems }
    ensures { IfOk result (IsOneMore (IsReasonsAnswer file.now settings.now (problem_at file.now number)) text.old.items text.new.items) }
{
    let problem = problem_in(alloc, file, number, settings)?;
    let told = solve_told(alloc, &problem)?;
    push_reasons(alloc, text, file.name(number).as_str(), &problem, &told)
}

impl<'a> Teller for Explaining<'a> {
    ghost use Rattle.problem_printouts.specs.inner.Asked.Question.{Explain};

    ghost asked = { λ t. record { file = t.file.now; question = Explain t.settings.now } };

    ghost ready = { λ _. Unit {0} };

    fn problems(&self) -> usize {
        self.file.problems()
    }

    fn push(&mut self, text: &mut Vec<u8>, number: usize) -> Result<bool, OutOfMemory> {
        push_reasons_of(self.alloc, text, self.file, number, self.settings)
    }
}

/// The reasons of the problems of a file.
fn explained(alloc: Global, file: &ProblemFile, settings: &Settings) -> Result<Answers, OutOfMemory>
    ensures { IfOk result (IsExplainOf file.now settings.now) }
{
    let mut explaining = Explaining {
        alloc,
        file,
        settings,
    };
    let mut text = Vec::new(alloc);
    let met = push_all(&mut explaining, &mut text)?;
    Answers::of(text, "problems ", file.problems() as u64, met)
}

/// Tells why each problem of a text has its interval, one problem after another in the order of the text, and at the end the line
/// `problems P met A failed B`. A problem is met where it has a solution.
///
/// # Errors
/// [`ProblemsFault::Problems`] with the first fault of the text, and [`ProblemsFault::Memory`] where memory ran out.
pub fn explain_printout(
    alloc: Global,
    problems: &[u8],
    settings: &Settings,
) -> Result<Answers, ProblemsFault>
    ensures exact { AnswersExplain settings.now problems.now result }
{
    let file = read_problems(alloc, problems)?;
    Ok(explained(alloc, &file, settings)?)
}
