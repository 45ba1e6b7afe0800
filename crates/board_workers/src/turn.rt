//! One piece, and one interval of it.
ghost use Rattle.std.specs.Prelude.{◌≡◌, ◌<◌, ◌≤◌, ◌+◌, ◌-◌, IsTrue, length};
ghost use Rattle.std.specs.List.{HoldsAt};
ghost use Rattle.loop_schedules.specs.Problems.{mii_of};
ghost use Rattle.board.specs.Views.{with_posted};
ghost use Rattle.candidates.specs.Choices.{last_of};
ghost use Rattle.reports.specs.Entries.{IsTrueAt};
ghost use Rattle.board_workers.specs.inner.Turns.{EntersOne, Takes, TakesOrPasses, Turned};
ghost use Rattle.machine_data.specs.declared.limits.TheConstants.{MAX_INTERVAL};

use board::Board;
use candidates::{Outcome, Piece, Trials};
use kernel::Kernel;
use reports::{Entry, Found, Report, enter, lose, reserve};
use std::alloc::Global;

/// Enters each interval of the piece, in order, or loses the piece for lack of memory.
pub(crate) fn turn<B: Board>(
    alloc: Global,
    board: &B,
    pass: &mut B::Pass,
    report: &mut Report<'_>,
    piece: Piece,
)
    requires of { B.is_of board.now pass.old }
    requires there { piece.loop_number < length report.old.loops }
    requires number { piece.loop_number < B.loops board.now }
    requires few { piece.loop_number < 1024 }
    requires some { piece.start ≤ piece.end }
    requires end { HoldsAt (λ p. piece.end ≤ p.ceiling + 1) report.old.loops piece.loop_number }
    requires short { piece.end ≤ 256 }
    requires lost { report.old.lost < 18446744073709551615 }
    ensures of { B.is_of board.now pass.new }
    ensures loops { report.new.loops ≡ report.old.loops }
    ensures same_dryness { B.dry pass.new ≡ B.dry pass.old }
    ensures same_dry { report.new.dry ≡ report.old.dry }
    ensures turned { Turned B.tells (B.view pass.old) (B.view pass.new) piece.loop_number piece.start (piece.end - piece.start) report.old report.new }
{
    if !reserve(report, (piece.end - piece.start) as usize) {
        lose(report);
        return;
    }
    let prepared = &report.loops()[piece.loop_number];
    let least = prepared.mii();
    let mut trials = Trials::of(prepared);
    let mut won = false;
    for above in piece.start..piece.end {
        won = enter_one::<B>(
            alloc,
            board,
            pass,
            report,
            &mut trials,
            piece.loop_number,
            least + above,
            won,
        );
    }
}

/// Enters one interval, which is beaten without a look where a lower one of its piece was won. Tells whether
/// one is won now.
fn enter_one<B: Board>(
    alloc: Global,
    board: &B,
    pass: &mut B::Pass,
    report: &mut Report<'_>,
    trials: &mut Trials<'_>,
    number: usize,
    interval: u64,
    won: bool,
) -> bool
    requires of { B.is_of board.now pass.old }
    requires there { number < length report.old.loops }
    requires its_loop { HoldsAt (λ p. p ≡ trials.old) report.old.loops number }
    requires number { number < B.loops board.now }
    requires small { number < 1024 }
    requires from_mii { mii_of trials.old ≤ interval }
    requires to_last { interval ≤ last_of trials.old }
    requires few { interval ≤ MAX_INTERVAL }
    requires room { 0 < report.old.room }
    ensures of { B.is_of board.now pass.new }
    ensures same_loop { trials.new ≡ trials.old }
    ensures same_dryness { B.dry pass.new ≡ B.dry pass.old }
    ensures entered { EntersOne B.tells (B.view pass.old) (B.view pass.new) number interval won result report.old report.new }
{
    let found = found_at::<B>(alloc, board, pass, trials, number, interval, won);
    let wins = won || found.is_won();
    enter(
        report,
        Entry {
            loop_number: number as u16,
            interval: interval as u16,
            found,
        },
    );
    wins
}

/// What becomes of one interval.
fn found_at<B: Board>(
    alloc: Global,
    board: &B,
    pass: &mut B::Pass,
    trials: &mut Trials<'_>,
    number: usize,
    interval: u64,
    won: bool,
) -> Found
    requires of { B.is_of board.now pass.old }
    requires number { number < B.loops board.now }
    requires from_mii { mii_of trials.old ≤ interval }
    requires to_last { interval ≤ last_of trials.old }
    requires few { interval ≤ MAX_INTERVAL }
    ensures of { B.is_of board.now pass.new }
    ensures same_loop { trials.new ≡ trials.old }
    ensures truth { IsTrueAt trials.old interval result }
    ensures same_dryness { B.dry pass.new ≡ B.dry pass.old }
    ensures told { IsTrue B.tells → TakesOrPasses won number interval (B.view pass.old) result (B.view pass.new) }
{
    if won {
        return Found::Beaten;
    }
    one::<B>(alloc, board, pass, trials, number, interval)
}

/// Looks, and tries the interval where no lower one is known to give a kernel.
fn one<B: Board>(
    alloc: Global,
    board: &B,
    pass: &mut B::Pass,
    trials: &mut Trials<'_>,
    number: usize,
    interval: u64,
) -> Found
    requires of { B.is_of board.now pass.old }
    requires number { number < B.loops board.now }
    requires from_mii { mii_of trials.old ≤ interval }
    requires to_last { interval ≤ last_of trials.old }
    requires few { interval ≤ MAX_INTERVAL }
    ensures of { B.is_of board.now pass.new }
    ensures same_loop { trials.new ≡ trials.old }
    ensures truth { IsTrueAt trials.old interval result }
    ensures same_dryness { B.dry pass.new ≡ B.dry pass.old }
    ensures told { IsTrue B.tells → Takes number interval (B.view pass.old) result (B.view pass.new) }
{
    if let Some(least) = board.look(pass, number) {
        if least < interval {
            return Found::Beaten;
        }
    }
    let kernel = match trials.try_interval(alloc, interval) {
        Ok(Outcome::Met(kernel)) => kernel,
        Ok(Outcome::Failed(cause)) => return Found::Failed(cause),
        Err(_) => return Found::Unsettled,
    };
    match Box::new(alloc, kernel) {
        Ok(kernel) => win::<B>(board, pass, number, interval, kernel),
        Err(_) => Found::Unsettled,
    }
}

/// Tells the board that an interval gives a kernel.
fn win<B: Board>(
    board: &B,
    pass: &mut B::Pass,
    number: usize,
    interval: u64,
    kernel: Box<Kernel>,
) -> Found
    requires of { B.is_of board.now pass.old }
    requires number { number < B.loops board.now }
    requires few { interval ≤ MAX_INTERVAL }
    ensures of { B.is_of board.now pass.new }
    ensures won { result ≡ Found.Won kernel }
    ensures same_dryness { B.dry pass.new ≡ B.dry pass.old }
    ensures told { IsTrue B.tells → B.view pass.new ≡ with_posted (B.view pass.old) number interval }
{
    board.post(pass, number, interval);
    Found::Won(kernel)
}
