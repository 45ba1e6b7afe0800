//! What is printed of the problems of a text as lines of operations and edges, and as graphs.

ghost use Rattle.std.specs.Prelude.{◌<◌, length, slice_index_or, true, IfOk};
ghost use Rattle.problem_graphs.specs.Dot.{IsDotText};
ghost use Rattle.problem_graphs.specs.Edges.{IsEdgesText};
ghost use Rattle.problem_reader.specs.Files.{problem_at};
ghost use Rattle.problem_printouts.specs.Graphing.{AnswersDot, AnswersEdges, IsDotOf, IsEdgesOf, IsGraphAnswer};
ghost use Rattle.problem_printouts.specs.inner.Sofar.{IsOneMore};

use crate::answers::Answers;
use crate::judging::settings;
use crate::making::problem_in;
use crate::walk::{Teller, push_all};
use machine_data::OutOfMemory;
use problem_faults::ProblemsFault;
use problem_graphs::{push_dot, push_edges};
use problem_reader::{ProblemFile, read_problems};
use std::alloc::Global;

/// The lines of operations and edges of each problem.
#[derive(Drop)]
struct EdgesOf<'a> {
    alloc: Global,
    file: &'a ProblemFile,
}

/// The graph of each problem.
#[derive(Drop)]
struct DotOf<'a> {
    alloc: Global,
    file: &'a ProblemFile,
}

/// Appends the lines of operations and edges of a problem. The result is that it is met.
fn push_edges_of(
    alloc: Global,
    text: &mut Vec<u8>,
    file: &ProblemFile,
    number: usize,
) -> Result<bool, OutOfMemory>
    requires { number < length file.now.problems }
    ensures { IfOk result (IsOneMore (IsGraphAnswer IsEdgesText file.now (problem_at file.now number)) text.old.items text.new.items) }
{
    let problem = problem_in(alloc, file, number, &settings())?;
    push_edges(alloc, text, file.name(number).as_str(), &problem)?;
    Ok(true)
}

/// Appends the graph of a problem. The result is that it is met.
fn push_dot_of(
    alloc: Global,
    text: &mut Vec<u8>,
    file: &ProblemFile,
    number: usize,
) -> Result<bool, OutOfMemory>
    requires { number < length file.now.problems }
    ensures { IfOk result (IsOneMore (IsGraphAnswer IsDotText file.now (problem_at file.now number)) text.old.items text.new.items) }
{
    let problem = problem_in(alloc, file, number, &settings())?;
    push_dot(alloc, text, file.name(number).as_str(), &problem)?;
    Ok(true)
}

impl<'a> Teller for EdgesOf<'a> {
    ghost use Rattle.problem_printouts.specs.inner.Asked.Question.{Edges};

    ghost asked = { λ t. record { file = t.file.now; question = Edges } };

    ghost ready = { λ _. Unit {0} };

    fn problems(&self) -> usize {
        self.file.problems()
    }

    fn push(&mut self, text: &mut Vec<u8>, number: usize) -> Result<bool, OutOfMemory> {
        push_edges_of(self.alloc, text, self.file, number)
    }
}

impl<'a> Teller for DotOf<'a> {
    ghost use Rattle.problem_printouts.specs.inner.Asked.Question.{Draw};

    ghost asked = { λ t. record { file = t.file.now; question = Draw } };

    ghost ready = { λ _. Unit {0} };

    fn problems(&self) -> usize {
        self.file.problems()
    }

    fn push(&mut self, text: &mut Vec<u8>, number: usize) -> Result<bool, OutOfMemory> {
        push_dot_of(self.alloc, text, self.file, number)
    }
}

/// The lines of the problems of a file.
fn edges_of(alloc: Global, file: &ProblemFile) -> Result<Answers, OutOfMemory>
    ensures { IfOk result (IsEdgesOf file.now) }
{
    let mut text = Vec::new(alloc);
    let met = push_all(&mut EdgesOf { alloc, file }, &mut text)?;
    Answers::of_count(text, file.problems() as u64, met)
}

/// The graphs of the problems of a file.
fn dot_of(alloc: Global, file: &ProblemFile) -> Result<Answers, OutOfMemory>
    ensures { IfOk result (IsDotOf file.now) }
{
    let mut text = Vec::new(alloc);
    let met = push_all(&mut DotOf { alloc, file }, &mut text)?;
    Ok(Answers::of_all(text, file.problems() as u64, met))
}

/// Tells the operations of each problem of a text, with their heights, and its edges, one problem after another in the order of the
/// text, and at the end the line `problems P`. Each problem is met.
///
/// # Errors
/// [`ProblemsFault::Problems`] with the first fault of the text, and [`ProblemsFault::Memory`] where memory ran out.
pub fn edges_printout(alloc: Global, problems: &[u8]) -> Result<Answers, ProblemsFault>
    ensures exact { AnswersEdges problems.now result }
{
    let file = read_problems(alloc, problems)?;
    Ok(edges_of(alloc, &file)?)
}

/// Draws each problem of a text as a graph for Graphviz, one after another in the order of the text. Each problem is met.
///
/// # Errors
/// [`ProblemsFault::Problems`] with the first fault of the text, and [`ProblemsFault::Memory`] where memory ran out.
pub fn dot_printout(alloc: Global, problems: &[u8]) -> Result<Answers, ProblemsFault>
    ensures exact { AnswersDot problems.now result }
{
    let file = read_problems(alloc, problems)?;
    Ok(dot_of(alloc, &file)?)
}
