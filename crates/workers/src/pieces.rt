//! A large text, of which each worker takes pieces all the way from reading to what is told of their kernels.

ghost use Rattle.std.specs.Prelude.{◌≡◌, ◌<◌, ◌≤◌, ◌++◌, ◌∷◌, [], ℕ, List, IfOk, IfSome, IsTrue, OnOk, length, map, slice_index_or, vec_len};
ghost use Rattle.std.specs.Borrow.{Bor};
ghost use Rattle.std.specs.List.{All, AllZip};
ghost use Rattle.machine_data.specs.declared.limits.TheConstants.{MAX_LOOPS};
ghost use Rattle.loop_schedules.specs.Problems.{ProblemData};
ghost use Rattle.candidates.specs.Files.{HaveCeiling};
ghost use Rattle.file_faults.specs.Answers.{AnswersIn};
ghost use Rattle.loop_reader.specs.Meaning.{loops_in};
ghost use Rattle.workers.specs.Told.{IsTold, MayTell};
ghost use Rattle.workers.specs.inner.Made.{AreTogether, IsMadeOf, IsPieceOf, ToldOfText};
ghost use Rattle.workers.specs.inner.Pieces.{NamesDiffer};

use crate::files::pipeline_of;
use crate::reading::apart::jobs_of;
use crate::reading::cutting::pieces_of;
use crate::reading::names::names_differ;
use board_workers::OpenGate;
use candidates::{Listing, Settings, choices_of, list_choices, prepare_all};
use file_faults::FileFault;
use loop_reader::read_loops;
use loop_schedules::Prepared;
use machine::{Machine, Name, OutOfMemory};
use machine_data::limits::{MAX_LOOPS, MAX_TEXT};
use shared_jobs::{Jobs, parts_of};
use std::alloc::Global;
use std::sync::atomic::{AtomicBool, Ordering};
use std::thread::Threads;

/// From how many bytes on a text is large. In a smaller one, loops may be so few that one of them is most of the work, and workers had better share its
/// intervals over the board.
const LARGE: usize = 65_536;

/// The least piece, in bytes: a loop or a few.
const PIECE: usize = 2_048;

/// The most pieces of a text: so many that workers which draw them end at about one time.
const PIECES: usize = 128;

/// What a worker makes of a piece.
#[derive(Drop)]
pub(crate) struct Piece<T> {
    /// The names of its loops.
    pub(crate) names: Vec<Name>,
    pub(crate) part: T,
}

/// What is told of the loops of a text.
#[derive(Drop)]
pub enum Told<T> {
    /// In parts, in the order of the text: what the calls of one function gave, each for some loops one after another, prepared for the machine, and for their listing.
    Apart(Vec<T>),
    /// Nothing yet: these are all loops, prepared for the machine, and their listing.
    Whole(Vec<Prepared>, Listing),
}

/// What `tell` tells of the loops of a text, in parts where workers share the text, and else the loops and their listing. Each worker that draws a piece of
/// a text of 64 KiB or more reads it, prepares its loops, tries their intervals one after another as the calling thread would, and calls `tell` for these loops
/// and their listing: threads start once for all of that, and what a piece takes in memory is given back before the next. The loops and their listing are as [`pipeline`](crate::pipeline) gives them.
///
/// # Errors
/// A fault of the text, then the first loop with an opcode that the machine has no table for; and [`FileFault::Memory`], where the
/// calling thread was refused memory.
pub fn tell_text<
    R: Threads + Sync,
    T: Drop + Send,
    F: Fn(&[Prepared], &Listing) -> Result<T, OutOfMemory> + Sync,
>(
    rt: &R,
    alloc: Global,
    machine: &Machine,
    text: &[u8],
    settings: &Settings,
    tell: &F,
) -> Result<Told<T>, FileFault>
    requires { MayTell F.Fn tell.now settings.now.ceiling }
    ensures exact { AnswersIn (IsTold F.Fn tell.now settings.now.ratio settings.now.ceiling machine.now) machine.now (loops_in text.now) result }
{
    if let Some(parts) = told_apart(rt, alloc, machine, text, settings, tell) {
        return Ok(Told::Apart(parts));
    }
    let (prepared, listing) = pipeline_of(rt, alloc, machine, text, settings, &OpenGate)?;
    Ok(Told::Whole(prepared, listing))
}

/// The parts that workers make of a large text. It is `None` where the text is not large or longer than a text may be, where there is one worker, where there are
/// fewer than two pieces for each worker, and where the calling thread had better look at the whole: a piece is at fault, loops of two pieces have one name or are too many, or memory is refused.
pub(crate) fn told_apart<
    R: Threads + Sync,
    T: Drop + Send,
    F: Fn(&[Prepared], &Listing) -> Result<T, OutOfMemory> + Sync,
>(
    rt: &R,
    alloc: Global,
    machine: &Machine,
    text: &[u8],
    settings: &Settings,
    tell: &F,
) -> Option<Vec<T>>
    requires { MayTell F.Fn tell.now settings.now.ceiling }
    ensures { IfSome result (λ parts. ToldOfText F.Fn tell.now machine.now settings.now.ratio settings.now.ceiling text.now parts.items) }
{
    if settings.workers() < 2 || text.len() < LARGE || text.len() > MAX_TEXT {
        return None;
    }
    let count = PIECES.min(text.len() / PIECE);
    let Ok(pieces) = pieces_of(alloc, text, count) else {
        return None;
    };
    if pieces.len() / 2 < settings.workers() {
        return None;
    }
    let jobs = jobs_of(alloc, pieces.as_slice(), settings.workers())?;
    let Ok(made) = make_all(rt, alloc, machine, pieces.as_slice(), settings, tell, &jobs) else {
        return None;
    };
    let (names, parts) = together(alloc, made)?;
    if are_of_one_text(alloc, names.as_slice()) {
        Some(parts)
    } else {
        None
    }
}

/// What workers make of these pieces, by these jobs. Where one makes nothing of its piece, all make nothing of those that follow, since the calling thread
/// then looks at the whole.
fn make_all<
    R: Threads + Sync,
    T: Drop + Send,
    F: Fn(&[Prepared], &Listing) -> Result<T, OutOfMemory> + Sync,
>(
    rt: &R,
    alloc: Global,
    machine: &Machine,
    pieces: &[&[u8]],
    settings: &Settings,
    tell: &F,
    jobs: &Jobs,
) -> Result<Vec<Option<Piece<T>>>, OutOfMemory>
    requires may { MayTell F.Fn tell.now settings.now.ceiling }
    requires each { vec_len jobs.now.list ≡ length pieces.now }
    requires within { All (λ (j : _). j.number < length pieces.now) jobs.now.list.items }
    ensures { IfOk result (λ made. AllZip (λ (piece : Bor (List ℕ)). IsMadeOf F.Fn tell.now machine.now settings.now.ratio settings.now.ceiling piece.now) pieces.now made.items) }
{
    let stop = AtomicBool::new(false);
    let stops = &stop;
    let made = parts_of(
        rt,
        alloc,
        jobs,
        &|number: usize| -> Result<Option<Piece<T>>, OutOfMemory>
            requires within { number < length pieces.now }
            requires may { MayTell F.Fn tell.now settings.now.ceiling }
            ensures { IfOk result (λ made. (d : Bor (List ℕ)) → IsMadeOf F.Fn tell.entry.now machine.entry.now settings.entry.now.ratio settings.entry.now.ceiling (slice_index_or pieces.entry.now number d).now made) }
        { Ok(made_unless(stops, alloc, machine, pieces[number], settings, tell)) },
    )?;
    Ok(made)
}

/// What a worker makes of a piece; nothing where all are to stop. All are to stop where it makes nothing.
fn made_unless<T: Drop, F: Fn(&[Prepared], &Listing) -> Result<T, OutOfMemory>>(
    stop: &AtomicBool,
    alloc: Global,
    machine: &Machine,
    text: &[u8],
    settings: &Settings,
    tell: &F,
) -> Option<Piece<T>>
    requires { MayTell F.Fn tell.now settings.now.ceiling }
    ensures { IsMadeOf F.Fn tell.now machine.now settings.now.ratio settings.now.ceiling text.now result }
{
    if stop.load(Ordering::SeqCst) {
        return None;
    }
    let made = made_of(alloc, machine, text, settings, tell);
    if made.is_none() {
        stop.store(true, Ordering::SeqCst);
    }
    made
}

/// What a worker makes of a piece; nothing where the piece is at fault by itself or memory is refused.
fn made_of<T: Drop, F: Fn(&[Prepared], &Listing) -> Result<T, OutOfMemory>>(
    alloc: Global,
    machine: &Machine,
    text: &[u8],
    settings: &Settings,
    tell: &F,
) -> Option<Piece<T>>
    requires { MayTell F.Fn tell.now settings.now.ceiling }
    ensures { IsMadeOf F.Fn tell.now machine.now settings.now.ratio settings.now.ceiling text.now result }
{
    let Ok(loops) = read_loops(alloc, text) else {
        return None;
    };
    let Ok(prepared) = prepare_all(alloc, machine, loops, settings) else {
        return None;
    };
    match piece_of(alloc, prepared.as_slice(), settings, tell) {
        Ok(piece) => Some(piece),
        Err(_) => None,
    }
}

/// What is told of prepared loops.
fn piece_of<T: Drop, F: Fn(&[Prepared], &Listing) -> Result<T, OutOfMemory>>(
    alloc: Global,
    prepared: &[Prepared],
    settings: &Settings,
    tell: &F,
) -> Result<Piece<T>, OutOfMemory>
    requires may { MayTell F.Fn tell.now settings.now.ceiling }
    requires ceilings { HaveCeiling settings.now.ceiling prepared.now }
    ensures { IfOk result (IsPieceOf F.Fn tell.now settings.now.ceiling prepared.now) }
{
    let choices = choices_of(alloc, prepared)?;
    let listing = list_choices(alloc, prepared, choices, settings)?;
    let names = names_of(alloc, prepared)?;
    let part = tell(prepared, &listing)?;
    Ok(Piece { names, part })
}

/// The names of prepared loops, in order.
fn names_of(alloc: Global, prepared: &[Prepared]) -> Result<Vec<Name>, OutOfMemory>
    ensures { IfOk result (λ names. names.items ≡ map (λ (p : ProblemData). p.loop.name) prepared.now) }
{
    let mut names = Vec::with_capacity(alloc, prepared.len())?;
    for one in prepared {
        names.push(one.innermost().name().copied())?;
    }
    Ok(names)
}

/// The names and the parts of all pieces, in their order; `None` where nothing was made of one, or memory is refused.
fn together<T: Drop>(alloc: Global, made: Vec<Option<Piece<T>>>) -> Option<(Vec<Name>, Vec<T>)>
    ensures { IfSome result (λ both. AreTogether made.items both.0.items both.1.items) }
{
    let mut names = Vec::new(alloc);
    let mut parts = Vec::new(alloc);
    let mut rest = made.into_iter();
    while let Some(one) = rest.next() {
        let Some(Piece { names: more, part }) = one else {
            return None;
        };
        if add_part(&mut names, &mut parts, more, part).is_err() {
            return None;
        }
    }
    Some((names, parts))
}

/// Adds what was made of a piece.
fn add_part<T: Drop>(
    names: &mut Vec<Name>,
    parts: &mut Vec<T>,
    mut more: Vec<Name>,
    part: T,
) -> Result<(), OutOfMemory>
    ensures names { OnOk result (names.new.items ≡ names.old.items ++ more.items) }
    ensures parts { OnOk result (parts.new.items ≡ parts.old.items ++ part ∷ []) }
{
    names.append(&mut more)?;
    parts.push(part)?;
    Ok(())
}

/// Whether these are names that the loops of one text may have: no two are one, and they are not too many. Where memory is refused this is not known.
fn are_of_one_text(alloc: Global, names: &[Name]) -> bool
    ensures few { IsTrue result → length names.now ≤ MAX_LOOPS }
    ensures differ { IsTrue result → NamesDiffer names.now }
{
    if names.len() > MAX_LOOPS {
        return false;
    }
    match names_differ(alloc, names) {
        Ok(differ) => differ,
        Err(_) => false,
    }
}
