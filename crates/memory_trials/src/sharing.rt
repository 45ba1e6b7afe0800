//! Workers of a caller, and what is gathered from them.

ghost use Rattle.std.specs.Prelude.{◌≡◌, [], IfSome};
ghost use Rattle.board.specs.Boards.{IsNewPassOf, IsPassOf, sizes_of};
ghost use Rattle.board.specs.Names.{terms_of};

use crate::answers::{Answer, NotBegun, tell, tell_not_begun};
use crate::given::LISTING;
use crate::three::{Three, given_board};
use board::{Board, WordBoard, WordPass};
use candidates::{Listing, Pieces, listing_text};
use machine::OutOfMemory;
use std::alloc::Global;
use std::io;
use workers::{OpenGate, Report, gather, work};

/// Tells what a worker comes to on the one pass of a board, and what is gathered from its report; and then what is gathered from no
/// report.
pub fn try_workers(rt: &(impl AllocGlobal + Print), three: &Three) -> io::Result<()> {
    match given_board(rt.alloc()) {
        Ok((board, pass)) => try_worker(rt, three, &board, pass)?,
        Err(NotBegun) => tell_not_begun(rt)?,
    }
    let alloc = rt.alloc();
    tell(
        rt,
        "gather",
        gathered(alloc, three, None),
        gathered(alloc, three, None),
    )
}

fn try_worker(
    rt: &(impl AllocGlobal + Print),
    three: &Three,
    board: &WordBoard,
    pass: WordPass,
) -> io::Result<()>
    requires sizes { sizes_of board.now ≡ terms_of 3 12 1 }
    requires pass { IsNewPassOf board.now pass }
{
    let alloc = rt.alloc();
    let pieces = Pieces::of(3, 3, 1);
    let loops = three.loops.as_slice();
    let (_, report) = work(alloc, 0, board, pass, loops, &pieces, &OpenGate);
    let told = told(&report);
    tell(
        rt,
        "work, gather",
        told,
        gathered(alloc, three, Some(report)),
    )
}

/// What a worker's report tells: each piece is an entry or lost, and the pass is dry.
fn told(report: &Report<'_>) -> Answer {
    let entries = report.entries().len() as u64;
    if !report.is_dry() || entries.checked_add(report.lost()) != Some(12) {
        Answer::Wrong
    } else if report.is_whole() {
        Answer::Right
    } else if entries > 0 {
        Answer::InPart
    } else {
        Answer::AllLost
    }
}

/// What is gathered from a report, or from none.
fn gathered(alloc: Global, three: &Three, report: Option<Report<'_>>) -> Answer
    requires { IfSome report (λ r. r.loops ≡ three.now.loops.items) }
{
    match listed(alloc, three, report) {
        Ok(Some(text)) => Answer::right_if(text.as_str() == LISTING),
        Ok(None) => Answer::Wrong,
        Err(_) => Answer::Refused,
    }
}

/// The listing of what is gathered, if each loop has a choice.
fn listed(
    alloc: Global,
    three: &Three,
    report: Option<Report<'_>>,
) -> Result<Option<String>, OutOfMemory>
    requires { IfSome report (λ r. r.loops ≡ three.now.loops.items) }
{
    let mut reports = Vec::with_capacity(alloc, 1)?;
    if let Some(report) = report {
        reports.push(report)?;
    }
    let choices = gather(alloc, three.loops.as_slice(), reports)?.into_choices();
    if choices.len() != 3 {
        return Ok(None);
    }
    let listing = Listing::of(alloc, 3, three.loops.as_slice(), choices)?;
    Ok(Some(listing_text(alloc, &listing)?))
}

/// Tells what calls on a board come to that take no memory.
pub fn try_bare_board(rt: &(impl AllocGlobal + Print)) -> io::Result<()> {
    match (given_board(rt.alloc()), Vec::with_capacity(rt.alloc(), 1)) {
        (Ok((board, pass)), Ok(room)) => tell_bare_board(rt, board, pass, room),
        _ => tell_not_begun(rt),
    }
}

fn tell_bare_board(
    rt: &impl Print,
    board: WordBoard,
    mut pass: WordPass,
    room: Vec<WordPass>,
) -> io::Result<()>
    requires sizes { sizes_of board ≡ terms_of 3 12 1 }
    requires pass { IsNewPassOf board pass }
    requires empty { room.items ≡ [] }
{
    let stepped = step(&board, &mut pass);
    tell(rt, "bare board", stepped, close(board, pass, room))
}

fn step(board: &WordBoard, pass: &mut WordPass) -> Answer
    requires sizes { sizes_of board.now ≡ terms_of 3 12 1 }
    requires pass { IsPassOf board.now pass.old }
    ensures { IsPassOf board.now pass.new }
{
    let before = (board.draw(pass), board.look(pass, 0));
    board.post(pass, 0, 9);
    let after = (board.draw(pass), board.look(pass, 0));
    Answer::right_if(before == (Some(0), None) && after == (Some(1), Some(9)))
}

fn close(board: WordBoard, pass: WordPass, mut room: Vec<WordPass>) -> Answer
    requires sizes { sizes_of board ≡ terms_of 3 12 1 }
    requires pass { IsPassOf board pass }
    requires empty { room.items ≡ [] }
{
    if room.push(pass).is_err() {
        return Answer::Wrong;
    }
    let Ok(closed) = board.close(room) else {
        return Answer::Wrong;
    };
    Answer::right_if(closed.drawn() == 2 && closed.least(0) == Some(9) && closed.least(1) == None)
}
