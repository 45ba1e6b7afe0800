//! What the problems of a file come to as one JSON document.

ghost use Rattle.std.specs.Prelude.{◌≡◌, ◌<◌, ◌≤◌, ◌-◌, ◌++◌, codes, drop, length, IfOk};
ghost use Rattle.settings.specs.declared.format.Format.TheVariants.{Json};
ghost use Rattle.problem_reader.specs.Files.{problem_at};
ghost use Rattle.writing.specs.Words.{told};
ghost use Rattle.problem_printouts.specs.Solving.{IsAnswer, IsSolveDocument};
ghost use Rattle.problem_printouts.specs.inner.Listed.{IsAfterComma};
ghost use Rattle.problem_printouts.specs.inner.Pieces.{AreInPlace};
ghost use Rattle.problem_printouts.specs.inner.Sofar.{IsOneMore};

use crate::answers::Answers;
use crate::sharing::{Piece, made};
use crate::solving::push_next;
use crate::walk::{Teller, push_all};
use machine_data::OutOfMemory;
use problem_reader::{KeptDrafts, ProblemFile};
use settings::{Format, Settings};
use std::alloc::Global;
use std::thread::Threads;
use writing::{Text, push_told};

/// Appends a comma, and what a problem comes to. The result is whether it is solved.
fn push_listed(
    alloc: Global,
    text: &mut Vec<u8>,
    file: &ProblemFile,
    drafts: &mut KeptDrafts<'_>,
    number: usize,
    settings: &Settings,
    places: &mut Vec<Option<Piece>>,
) -> Result<bool, OutOfMemory>
    requires there { number < length file.now.problems }
    requires drafts { drafts.old ≡ file.now }
    requires places { AreInPlace file.now settings.now Json places.old.items }
    ensures same { drafts.new ≡ drafts.old }
    ensures kept { AreInPlace file.now settings.now Json places.new.items }
    ensures answer { IfOk result (IsOneMore (IsAfterComma (IsAnswer file.now settings.now Json (problem_at file.now number))) text.old.items text.new.items) }
{
    text.push_piece(",")?;
    push_next(
        alloc,
        text,
        file,
        drafts,
        number,
        settings,
        Format::Json,
        places,
    )
}

/// What each problem comes to as JSON after a comma, with what workers made of them.
#[derive(Drop)]
struct Listing<'a> {
    alloc: Global,
    file: &'a ProblemFile,
    drafts: KeptDrafts<'a>,
    settings: &'a Settings,
    places: Vec<Option<Piece>>,
}

impl<'a> Teller for Listing<'a> {
    ghost use Rattle.std.specs.Prelude.{◌≡◌};
    ghost use Rattle.settings.specs.declared.format.Format.TheVariants.{Json};
    ghost use Rattle.problem_printouts.specs.inner.Asked.Question.{Document};
    ghost use Rattle.problem_printouts.specs.inner.Pieces.{AreInPlace};

    ghost asked = { λ t. record { file = t.file.now; question = Document t.settings.now } };

    ghost ready = { λ t. (t.drafts ≡ t.file.now) × AreInPlace t.file.now t.settings.now Json t.places.items };

    fn problems(&self) -> usize {
        self.file.problems()
    }

    fn push(&mut self, text: &mut Vec<u8>, number: usize) -> Result<bool, OutOfMemory> {
        push_listed(
            self.alloc,
            text,
            self.file,
            &mut self.drafts,
            number,
            self.settings,
            &mut self.places,
        )
    }
}

/// A list without the comma that it begins with, if it has anything.
fn without_comma(list: &[u8]) -> &[u8]
    ensures { result.now ≡ drop 1 list.now }
{
    match list {
        [] => list,
        [_, rest @ ..] => rest,
    }
}

/// The document of a list that begins with a comma, if it has anything.
fn document(alloc: Global, list: &[u8], met: u64, failed: u64) -> Result<Vec<u8>, OutOfMemory>
    ensures { IfOk result (λ text. text.items ≡ ((told (codes "{\"failed\":") failed ++ told (codes ",\"met\":") met) ++ codes ",\"problems\":[") ++ (drop 1 list.now ++ codes "],\"version\":1}\n")) }
{
    let mut text = Vec::new(alloc);
    push_told(&mut text, "{\"failed\":", failed)?;
    push_told(&mut text, ",\"met\":", met)?;
    text.push_piece(",\"problems\":[")?;
    text.extend_from_slice(without_comma(list))?;
    text.push_piece("],\"version\":1}\n")?;
    Ok(text)
}

/// The document of a list with an answer to each of `all` problems, of which `met` are met.
fn answers_of(alloc: Global, list: &[u8], all: u64, met: u64) -> Result<Answers, OutOfMemory>
    requires { met ≤ all }
    ensures text { IfOk result (λ a. a.text.items ≡ ((told (codes "{\"failed\":") (all - met) ++ told (codes ",\"met\":") met) ++ codes ",\"problems\":[") ++ (drop 1 list.now ++ codes "],\"version\":1}\n")) }
    ensures met { IfOk result (λ a. a.met ≡ met) }
    ensures failed { IfOk result (λ a. a.failed ≡ all - met) }
{
    let text = document(alloc, list, met, all - met)?;
    Ok(Answers::of_all(text, all, met))
}

/// What the problems of a file come to, as a JSON document.
pub(crate) fn documented<R: Threads + Sync>(
    rt: &R,
    alloc: Global,
    file: &ProblemFile,
    settings: &Settings,
) -> Result<Answers, OutOfMemory>
    ensures { IfOk result (IsSolveDocument file.now settings.now) }
{
    let places = made(rt, alloc, file, settings, Format::Json);
    let mut listing = Listing {
        alloc,
        file,
        drafts: KeptDrafts::of(file),
        settings,
        places,
    };
    let mut list = Vec::new(alloc);
    let met = push_all(&mut listing, &mut list)?;
    answers_of(alloc, list.as_slice(), file.problems() as u64, met)
}
