//! What is printed of the problems of a text as graphs with their schedules.

ghost use Rattle.std.specs.Prelude.{◌<◌, length, IfOk};
ghost use Rattle.problem_reader.specs.Files.{problem_at};
ghost use Rattle.problem_printouts.specs.Scheduling.{AnswersScheduled, IsScheduledAnswer, IsScheduledOf};
ghost use Rattle.problem_printouts.specs.inner.Sofar.{IsOneMore};

use crate::answers::Answers;
use crate::making::problem_in;
use crate::walk::{Teller, push_all};
use machine_data::OutOfMemory;
use outcome_text::is_met;
use problem_faults::ProblemsFault;
use problem_graphs::push_scheduled;
use problem_reader::{ProblemFile, read_problems};
use settings::Settings;
use solutions::solve;
use std::alloc::Global;

/// The graph of each problem with its schedule.
#[derive(Drop)]
struct Scheduling<'a> {
    alloc: Global,
    file: &'a ProblemFile,
    settings: &'a Settings,
}

/// Solves a problem, and appends its graph with the schedule. The result is whether it has a solution.
fn push_scheduled_of(
    alloc: Global,
    text: &mut Vec<u8>,
    file: &ProblemFile,
    number: usize,
    settings: &Settings,
) -> Result<bool, OutOfMemory>
    requires { number < length file.now.problems }
    ensures { IfOk result (IsOneMore (IsScheduledAnswer file.now settings.now (problem_at file.now number)) text.old.items text.new.items) }
{
    let problem = problem_in(alloc, file, number, settings)?;
    let outcome = solve(alloc, &problem)?;
    push_scheduled(alloc, text, file.name(number).as_str(), &problem, &outcome)?;
    Ok(is_met(&outcome))
}

impl<'a> Teller for Scheduling<'a> {
    ghost use Rattle.problem_printouts.specs.inner.Asked.Question.{DrawScheduled};

    ghost asked = { λ t. record { file = t.file.now; question = DrawScheduled t.settings.now } };

    ghost ready = { λ _. Unit {0} };

    fn problems(&self) -> usize {
        self.file.problems()
    }

    fn push(&mut self, text: &mut Vec<u8>, number: usize) -> Result<bool, OutOfMemory> {
        push_scheduled_of(self.alloc, text, self.file, number, self.settings)
    }
}

/// The graphs of the problems of a file with their schedules.
fn scheduled(alloc: Global, file: &ProblemFile, settings: &Settings) -> Result<Answers, OutOfMemory>
    ensures { IfOk result (IsScheduledOf file.now settings.now) }
{
    let mut scheduling = Scheduling {
        alloc,
        file,
        settings,
    };
    let mut text = Vec::new(alloc);
    let met = push_all(&mut scheduling, &mut text)?;
    Ok(Answers::of_all(text, file.problems() as u64, met))
}

/// Draws each problem of a text as a graph for Graphviz with the schedule of its solution, or with why it has none, one after another in the
/// order of the text. A problem is met where it has a solution.
///
/// # Errors
/// [`ProblemsFault::Problems`] with the first fault of the text, and [`ProblemsFault::Memory`] where memory ran out.
pub fn scheduled_printout(
    alloc: Global,
    problems: &[u8],
    settings: &Settings,
) -> Result<Answers, ProblemsFault>
    ensures exact { AnswersScheduled settings.now problems.now result }
{
    let file = read_problems(alloc, problems)?;
    Ok(scheduled(alloc, &file, settings)?)
}
