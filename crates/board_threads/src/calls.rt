//! Each call of both boards, on one thread.
ghost use Rattle.std.specs.Prelude.{◌≡◌, ◌≤◌, IfOk};
ghost use Rattle.board.specs.Boards.{IsPassOf, tag_of, sizes_of};
ghost use Rattle.board.specs.Names.{terms_of};

use board::{Board, LockedBoard, LockedPass, OutOfMemory, Stranger, WordBoard, WordPass};
use std::alloc::Global;
use std::sync::Wait;
use std::test::Fail;

fn with_one_pass(alloc: Global, tag: u64, pieces: u64) -> Result<(WordBoard, WordPass), OutOfMemory>
    requires { pieces ≤ 262144 }
    ensures of { IfOk result (λ r. IsPassOf r.0 r.1) }
    ensures tag { IfOk result (λ r. tag_of r.0 ≡ tag) }
    ensures sizes { IfOk result (λ r. sizes_of r.0 ≡ terms_of 2 pieces 1) }
{
    let (board, mut passes) = WordBoard::new(alloc, tag, 2, pieces, 1)?;
    let Some(pass) = passes.pop() else {
        unreachable!()
    };
    Ok((board, pass))
}

#[test]
fn a_look_sees_the_least_post(rt: HostRuntime) -> Result<(), Fail> {
    let (board, mut pass) = with_one_pass(rt.alloc(), 1, 3)?;
    assert!(rt; board.look(&mut pass, 0) == None);
    board.post(&mut pass, 0, 9);
    assert!(rt; board.look(&mut pass, 0) == Some(9));
    board.post(&mut pass, 0, 12);
    assert!(rt; board.look(&mut pass, 0) == Some(9) && board.look(&mut pass, 1) == None);
    Ok(())
}

#[test]
fn intervals_at_both_ends(rt: HostRuntime) -> Result<(), Fail> {
    let (board, mut pass) = with_one_pass(rt.alloc(), 1, 3)?;
    board.post(&mut pass, 0, 16_384);
    assert!(rt; board.look(&mut pass, 0) == Some(16_384));
    board.post(&mut pass, 0, 0);
    assert!(rt; board.look(&mut pass, 0) == Some(0));
    Ok(())
}

#[test]
fn a_dry_pass_draws_no_more(rt: HostRuntime) -> Result<(), Fail> {
    let (board, mut pass) = with_one_pass(rt.alloc(), 1, 1)?;
    let first = board.draw(&mut pass);
    let second = board.draw(&mut pass);
    let third = board.draw(&mut pass);
    let fourth = board.draw(&mut pass);
    assert!(rt; first == Some(0) && second == None && third == None && fourth == None);
    let closed = board.close(vec![in rt.alloc(); pass]?);
    assert!(rt; matches!(&closed, Ok(closed) if closed.drawn() == 2));
    Ok(())
}

#[test]
fn two_passes_share_the_pieces(rt: HostRuntime) -> Result<(), Fail> {
    let (board, mut passes) = WordBoard::new(rt.alloc(), 1, 2, 12, 2)?;
    let Some(mut first) = passes.pop() else {
        unreachable!()
    };
    let drawn = [
        board.draw(&mut first),
        board.draw(&mut first),
        board.draw(&mut first),
    ];
    assert!(rt; drawn == [Some(0), Some(1), Some(2)]);
    passes.push(first)?;
    let Ok(closed) = board.close(passes) else {
        panic!(rt; "both passes came back")
    };
    assert!(rt; closed.drawn() == 3 && closed.least(0) == None && closed.least(1) == None);
    Ok(())
}

#[test]
fn a_stranger_is_handed_back(rt: HostRuntime) -> Result<(), Fail> {
    let (board, mut passes) = WordBoard::new(rt.alloc(), 1, 2, 12, 2)?;
    let (_other_board, other) = with_one_pass(rt.alloc(), 2, 3)?;
    let Some(second) = passes.pop() else {
        unreachable!()
    };
    passes.push(other)?;
    let Err(Stranger { board, mut passes }) = board.close(passes) else {
        panic!(rt; "a pass carries the tag 2")
    };
    let Some(other) = passes.pop() else {
        panic!(rt; "two passes were handed in")
    };
    assert!(rt; other.tag() == 2 && board.tag() == 1);
    let Err(Stranger { board, mut passes }) = board.close(passes) else {
        panic!(rt; "one pass was kept back")
    };
    passes.push(second)?;
    assert!(rt; board.close(passes).is_ok());
    Ok(())
}

#[test]
fn no_pass_is_too_few(rt: HostRuntime) -> Result<(), Fail> {
    let (board, _pass) = with_one_pass(rt.alloc(), 1, 3)?;
    assert!(rt; board.close(Vec::new(rt.alloc())).is_err());
    Ok(())
}

fn locked_with_one_pass<R: Wait + Drop>(
    rt: R,
    alloc: Global,
    pieces: u64,
) -> Result<(LockedBoard<R>, LockedPass), OutOfMemory>
    requires { pieces ≤ 262144 }
    ensures loops { IfOk result (λ r. r.0.loops ≡ 2) }
    ensures pieces { IfOk result (λ r. r.0.pieces ≡ pieces) }
{
    let (board, mut passes) = LockedBoard::new(rt, alloc, 2, pieces, 1)?;
    let Some(pass) = passes.pop() else {
        unreachable!()
    };
    Ok((board, pass))
}

#[test]
fn a_locked_board_gives_each_piece_once(rt: HostRuntime) -> Result<(), Fail> {
    let alloc = rt.alloc();
    let (board, mut passes) = LockedBoard::new(&rt, alloc, 1, 3, 2)?;
    let (Some(mut one), Some(mut two), None) = (passes.pop(), passes.pop(), passes.pop()) else {
        panic!(rt; "two passes were asked for")
    };
    let drawn = [
        board.draw(&mut one),
        board.draw(&mut two),
        board.draw(&mut one),
        board.draw(&mut two),
        board.draw(&mut one),
        board.draw(&mut two),
    ];
    assert!(rt; drawn == [Some(0), Some(1), Some(2), None, None, None]);
    Ok(())
}

#[test]
fn a_locked_look_sees_the_least_post(rt: HostRuntime) -> Result<(), Fail> {
    let (board, mut pass) = locked_with_one_pass(&rt, rt.alloc(), 3)?;
    assert!(rt; board.look(&mut pass, 0) == None && board.look(&mut pass, 1) == None);
    for (interval, least) in [(16_384, 16_384), (9, 9), (12, 9), (3, 3), (0, 0), (1, 0)] {
        board.post(&mut pass, 1, interval);
        assert!(rt; board.look(&mut pass, 1) == Some(least), "after {interval}");
    }
    assert!(rt; board.look(&mut pass, 0) == None);
    assert!(rt; board.draw(&mut pass) == Some(0));
    Ok(())
}

#[test]
fn a_locked_board_without_pieces_is_dry_at_once(rt: HostRuntime) -> Result<(), Fail> {
    let (board, mut pass) = locked_with_one_pass(&rt, rt.alloc(), 0)?;
    assert!(rt; board.draw(&mut pass) == None && board.draw(&mut pass) == None);
    Ok(())
}
