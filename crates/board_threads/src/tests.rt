//! Threads share one board of words. What takes a handle here takes one that starts threads, and none
//! that waits.
ghost use Rattle.std.specs.Prelude.{◌≡◌, ◌≤◌, ◌<◌, IfOk, IfSome};
ghost use Rattle.board.specs.Boards.{IsPassOf, IsNewPassOf, sizes_of, view_of};
ghost use Rattle.board.specs.Closes.{loops_of};
ghost use Rattle.board.specs.Names.{terms_of};

use crate::drain;
use board::{Board, Closed, OutOfMemory, WordBoard, WordPass};
use std::alloc::Global;
use std::test::Fail;
use std::thread::{Threads, join};

const LOOKS: u64 = 10_000_000;

// Posts for one loop, and looks at the other until it sees a post or has looked often enough.
fn meet(board: &WordBoard, pass: &mut WordPass, mine: usize, interval: u64) -> bool
    requires of { IsPassOf board.now pass.old }
    requires loops { (sizes_of board.now).loops ≡ 2 }
    requires mine { mine < 2 }
    requires interval { interval ≤ 16384 }
    ensures of { IsPassOf board.now pass.new }
    ensures drawn { (view_of pass.new).drawn ≡ (view_of pass.old).drawn }
{
    board.post(pass, mine, interval);
    for _ in 0..LOOKS {
        if board.look(pass, 1 - mine).is_some() {
            return true;
        }
    }
    false
}

#[derive(Clone, Copy)]
struct Told {
    met: bool,
    pieces: u64,
}

// Meets the other thread, and then draws along with it until there is nothing left.
fn meet_and_drain(
    board: &WordBoard,
    mut pass: WordPass,
    mine: usize,
    interval: u64,
) -> (WordPass, Told)
    requires of { IsNewPassOf board.now pass }
    requires sizes { sizes_of board.now ≡ terms_of 2 12 2 }
    requires mine { mine < 2 }
    requires interval { interval ≤ 16384 }
    ensures { IsPassOf board.now result.0 }
{
    let met = meet(board, &mut pass, mine, interval);
    let (pass, pieces) = drain(board, pass, 12);
    (pass, Told { met, pieces })
}

fn both_meet_and_drain<R: Threads + Sync>(
    rt: &R,
    alloc: Global,
) -> Result<Option<(Closed, Told, Told)>, OutOfMemory>
    ensures { IfOk result (λ r. IfSome r (λ s. loops_of s.0 ≡ 2)) }
{
    let (board, mut passes) = WordBoard::new(alloc, 1, 2, 12, 2)?;
    let (Some(one), Some(two)) = (passes.pop(), passes.pop()) else {
        return Ok(None);
    };
    let shared = &board;
    let ((one, first), (two, second)) = join(
        rt,
        || -> (WordPass, Told)
            requires { IsNewPassOf shared.now one × (sizes_of shared.now ≡ terms_of 2 12 2) }
            ensures { IsPassOf shared.entry.now result.0 }
        { meet_and_drain(shared, one, 0, 5) },
        || -> (WordPass, Told)
            requires { IsNewPassOf shared.now two × (sizes_of shared.now ≡ terms_of 2 12 2) }
            ensures { IsPassOf shared.entry.now result.0 }
        { meet_and_drain(shared, two, 1, 6) },
    );
    let closed = board.close(vec![in alloc; one, two]?).ok();
    Ok(closed.map(|closed| (closed, first, second)))
}

#[test]
fn two_threads_see_each_others_posts_and_share_the_pieces(rt: HostRuntime) -> Result<(), Fail> {
    let Some((closed, one, two)) = both_meet_and_drain(&rt, rt.alloc())? else {
        panic!(rt; "the board was not closed")
    };
    assert!(rt; one.met && two.met);
    assert!(rt; closed.least(0) == Some(5) && closed.least(1) == Some(6));
    assert_eq!(rt;
        (one.pieces.checked_add(two.pieces), closed.drawn()),
        (Some(12), 14)
    );
    Ok(())
}

// Draws three pieces. Whether they are the first three, in order.
fn draw_three(board: &WordBoard, mut pass: WordPass) -> (WordPass, bool)
    requires { IsPassOf board.now pass }
    ensures { IsPassOf board.now result.0 }
{
    let drawn = [
        board.draw(&mut pass),
        board.draw(&mut pass),
        board.draw(&mut pass),
    ];
    (pass, drawn == [Some(0), Some(1), Some(2)])
}

// Posts the greatest interval and the least. Whether a look after each answers it.
fn post_both_ends(board: &WordBoard, mut pass: WordPass) -> (WordPass, bool)
    requires of { IsPassOf board.now pass }
    requires loops { (sizes_of board.now).loops ≡ 2 }
    ensures { IsPassOf board.now result.0 }
{
    board.post(&mut pass, 0, 16_384);
    let first = board.look(&mut pass, 0);
    board.post(&mut pass, 0, 0);
    let second = board.look(&mut pass, 0);
    (pass, first == Some(16_384) && second == Some(0))
}

fn draws_beside_posts<R: Threads + Sync>(
    rt: &R,
    alloc: Global,
) -> Result<Option<(Closed, bool)>, OutOfMemory>
    ensures { IfOk result (λ r. IfSome r (λ s. loops_of s.0 ≡ 2)) }
{
    let (board, mut passes) = WordBoard::new(alloc, 1, 2, 12, 2)?;
    let (Some(one), Some(two)) = (passes.pop(), passes.pop()) else {
        return Ok(None);
    };
    let shared = &board;
    let ((one, drew), (two, saw)) = join(
        rt,
        || -> (WordPass, bool)
            requires { IsPassOf shared.now one }
            ensures { IsPassOf shared.entry.now result.0 }
        { draw_three(shared, one) },
        || -> (WordPass, bool)
            requires { IsPassOf shared.now two × ((sizes_of shared.now).loops ≡ 2) }
            ensures { IsPassOf shared.entry.now result.0 }
        { post_both_ends(shared, two) },
    );
    let closed = board.close(vec![in alloc; one, two]?).ok();
    Ok(closed.map(|closed| (closed, drew && saw)))
}

#[test]
fn one_thread_draws_while_the_other_posts(rt: HostRuntime) -> Result<(), Fail> {
    let Some((closed, as_wanted)) = draws_beside_posts(&rt, rt.alloc())? else {
        panic!(rt; "the board was not closed")
    };
    assert!(rt; as_wanted && closed.drawn() == 3);
    assert!(rt; closed.least(0) == Some(0) && closed.least(1) == None);
    Ok(())
}
