//! What is printed where the problems of a text are solved.

ghost use Rattle.std.specs.Prelude.{◌≡◌, ◌<◌, length, IfOk};
ghost use Rattle.settings.specs.declared.format.Format.TheVariants.{Text};
ghost use Rattle.problem_reader.specs.Files.{problem_at};
ghost use Rattle.problem_printouts.specs.Solving.{AnswersSolve, IsAnswer, IsSolveIn, IsSolveText};
ghost use Rattle.problem_printouts.specs.inner.Pieces.{AreInPlace, IsPiece};
ghost use Rattle.problem_printouts.specs.inner.Sofar.{IsOneMore};

use crate::answers::Answers;
use crate::documents::documented;
use crate::pieces::push_answer;
use crate::sharing::{Piece, made, taken};
use crate::walk::{Teller, push_all};
use machine_data::OutOfMemory;
use problem_faults::ProblemsFault;
use problem_reader::{KeptDrafts, ProblemFile, read_problems};
use settings::{Format, Settings};
use std::alloc::Global;
use std::thread::Threads;

/// Appends what a worker made of a problem. The result is whether it is solved.
fn push_piece(
    text: &mut Vec<u8>,
    piece: &Piece,
    _file: &ProblemFile,
    _settings: &Settings,
    _format: Format,
) -> Result<bool, OutOfMemory>
    requires { IsPiece _file.now _settings.now _format piece.now }
    ensures { IfOk result (IsOneMore (IsAnswer _file.now _settings.now _format (problem_at _file.now piece.now.number)) text.old.items text.new.items) }
{
    text.extend_from_slice(piece.text.as_slice())?;
    Ok(piece.met)
}

/// Appends what a problem comes to in a format: what a worker made of it, if one did. The result is whether it is solved.
pub(crate) fn push_next(
    alloc: Global,
    text: &mut Vec<u8>,
    file: &ProblemFile,
    drafts: &mut KeptDrafts<'_>,
    number: usize,
    settings: &Settings,
    format: Format,
    places: &mut Vec<Option<Piece>>,
) -> Result<bool, OutOfMemory>
    requires there { number < length file.now.problems }
    requires drafts { drafts.old ≡ file.now }
    requires places { AreInPlace file.now settings.now format places.old.items }
    ensures same { drafts.new ≡ drafts.old }
    ensures kept { AreInPlace file.now settings.now format places.new.items }
    ensures answer { IfOk result (IsOneMore (IsAnswer file.now settings.now format (problem_at file.now number)) text.old.items text.new.items) }
{
    match taken(places, number, file, settings, format) {
        Some(piece) => push_piece(text, &piece, file, settings, format),
        None => push_answer(alloc, text, file, drafts, number, settings, format),
    }
}

/// What each problem comes to as text, with what workers made of them.
#[derive(Drop)]
struct Solving<'a> {
    alloc: Global,
    file: &'a ProblemFile,
    drafts: KeptDrafts<'a>,
    settings: &'a Settings,
    places: Vec<Option<Piece>>,
}

impl<'a> Teller for Solving<'a> {
    ghost use Rattle.std.specs.Prelude.{◌≡◌};
    ghost use Rattle.settings.specs.declared.format.Format.TheVariants.{Text};
    ghost use Rattle.problem_printouts.specs.inner.Asked.Question.{Solve};
    ghost use Rattle.problem_printouts.specs.inner.Pieces.{AreInPlace};

    ghost asked = { λ t. record { file = t.file.now; question = Solve t.settings.now } };

    ghost ready = { λ t. (t.drafts ≡ t.file.now) × AreInPlace t.file.now t.settings.now Text t.places.items };

    fn problems(&self) -> usize {
        self.file.problems()
    }

    fn push(&mut self, text: &mut Vec<u8>, number: usize) -> Result<bool, OutOfMemory> {
        push_next(
            self.alloc,
            text,
            self.file,
            &mut self.drafts,
            number,
            self.settings,
            Format::Text,
            &mut self.places,
        )
    }
}

/// What the problems of a file come to, as text.
fn solved<R: Threads + Sync>(
    rt: &R,
    alloc: Global,
    file: &ProblemFile,
    settings: &Settings,
) -> Result<Answers, OutOfMemory>
    ensures { IfOk result (IsSolveText file.now settings.now) }
{
    let places = made(rt, alloc, file, settings, Format::Text);
    let mut solving = Solving {
        alloc,
        file,
        drafts: KeptDrafts::of(file),
        settings,
        places,
    };
    let mut text = Vec::new(alloc);
    let met = push_all(&mut solving, &mut text)?;
    Answers::of(text, "# problems ", file.problems() as u64, met)
}

/// What the problems of a file come to, in this format.
fn solved_in<R: Threads + Sync>(
    rt: &R,
    alloc: Global,
    file: &ProblemFile,
    settings: &Settings,
    format: Format,
) -> Result<Answers, OutOfMemory>
    ensures { IfOk result (IsSolveIn format file.now settings.now) }
{
    match format {
        Format::Text => solved(rt, alloc, file, settings),
        Format::Json => documented(rt, alloc, file, settings),
    }
}

/// Solves each problem of a text, and tells in this format what that comes to: as text the answers one after another, in the order of
/// the text, and at the end the line `# problems P met A failed B`; as JSON one document, on one line. The workers of the settings,
/// each in a thread where one can be started, share the problems. With one worker no thread is started. Neither workers nor cut
/// change anything that is told.
///
/// # Errors
/// [`ProblemsFault::Problems`] with the first fault of the text, and [`ProblemsFault::Memory`] where the calling thread was
/// refused memory.
pub fn solve_printout<R: Threads + Sync>(
    rt: &R,
    alloc: Global,
    problems: &[u8],
    settings: &Settings,
    format: Format,
) -> Result<Answers, ProblemsFault>
    ensures exact { AnswersSolve settings.now format problems.now result }
{
    let file = read_problems(alloc, problems)?;
    Ok(solved_in(rt, alloc, &file, settings, format)?)
}
