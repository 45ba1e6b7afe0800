//! What the commands that take scheduling problems write.

ghost use Rattle.std.specs.Prelude.{◌≡◌, IfErr};
ghost use Rattle.problem_printouts.specs.Solving.{AnswersSolve};
ghost use Rattle.problem_printouts.specs.Judging.{AnswersCheck};
ghost use Rattle.modsched.specs.Engine.{AnswersReport, ProblemsBring, problems_ending};
ghost use Rattle.modsched.specs.inner.Answers.{ending_of};
ghost use Rattle.modsched.specs.inner.Refusals.{IsRefusal};

use super::answer::Answer;
use command_line::{Format, Report};
use exit_status::Status;
use problem_faults::ProblemsFault;
use problem_printouts::{
    Answers, check_printout, dot_printout, edges_printout, explain_printout, scheduled_printout,
    solve_printout,
};
use settings::Settings;
use std::alloc::Global;
use std::thread::Threads;
use written::Printout;

/// What `solve` writes of the problems of a text, or the status of a refusal.
pub(crate) fn solve_text<R: Threads + Sync>(
    rt: &R,
    alloc: Global,
    settings: &Settings,
    format: Format,
    problems: &[u8],
) -> Result<Answer, Status>
    ensures brings { ProblemsBring (AnswersSolve settings.now format problems.now) (ending_of result) }
    ensures kind { IfErr result IsRefusal }
{
    problems_ending(solve_printout(rt, alloc, problems, settings, format))
}

/// What is written of the problems of a text, or the status of a refusal.
pub(crate) fn report_text(alloc: Global, told: &Report, problems: &[u8]) -> Result<Answer, Status>
    ensures brings { ProblemsBring (AnswersReport told.now problems.now) (ending_of result) }
    ensures kind { IfErr result IsRefusal }
{
    match told {
        Report::Edges => problems_ending(edges_printout(alloc, problems)),
        Report::Dot => problems_ending(dot_printout(alloc, problems)),
        Report::Scheduled(settings) => {
            problems_ending(scheduled_printout(alloc, problems, settings))
        }
        Report::Explain(settings) => problems_ending(explain_printout(alloc, problems, settings)),
    }
}

/// What `check` writes of the problems of a text and solutions of them, or the status of a refusal.
pub(crate) fn check_text(alloc: Global, problems: &[u8], solutions: &[u8]) -> Result<Answer, Status>
    ensures brings { ProblemsBring (AnswersCheck problems.now solutions.now) (ending_of result) }
    ensures kind { IfErr result IsRefusal }
{
    problems_ending(check_printout(alloc, problems, solutions))
}

/// What problems come to, with the status of a refusal. All are met where none has failed.
fn problems_ending(outcome: Result<Answers, ProblemsFault>) -> Result<Answer, Status>
    ensures ending { ending_of result ≡ problems_ending outcome }
    ensures kind { IfErr result IsRefusal }
{
    match outcome {
        Ok(answers) => Ok(Answer::Printout(Printout::new(answers.text, answers.failed == 0))),
        Err(fault) => Err(Status::from(fault)),
    }
}
