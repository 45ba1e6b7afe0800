//! One worker over a shared board.
ghost use Rattle.std.specs.Prelude.{◌≡◌, IsTrue, false, length};
ghost use Rattle.std.specs.List.{All};
ghost use Rattle.loop_listings.specs.Pieces.{piece_count};
ghost use Rattle.board_workers.specs.Worked.{IsUnused, WorkedAs};

use crate::gate::Gate;
use crate::turn::turn;
use board::Board;
use candidates::Pieces;
use loop_schedules::Prepared;
use reports::{Report, go_dry, report_of};
use std::alloc::Global;

/// Draws pieces from a board and tries their intervals, until none is left or the gate says no, and at most
/// once more than there are pieces. For each interval of a piece, in order, it looks at the loop's least
/// interval that some worker posted. Where that is lower, the interval is beaten; else it is tried, and a
/// kernel is posted and ends the piece. Where memory is refused, an interval is unsettled or a piece lost,
/// and the worker goes on.
pub fn work<'a, B: Board, G: Gate>(
    alloc: Global,
    worker: usize,
    board: &B,
    mut pass: B::Pass,
    loops: &'a [Prepared],
    pieces: &Pieces,
    gate: &G,
) -> (B::Pass, Report<'a>)
    requires of { B.is_of board.now pass }
    requires each_loop { pieces.now.loops ≡ length loops.now }
    requires ceilings { All (λ p. p.ceiling ≡ pieces.now.ceiling) loops.now }
    requires loops { B.loops board.now ≡ pieces.now.loops }
    requires pieces { B.pieces board.now ≡ piece_count pieces.now }
    ensures of { B.is_of board.now result.0 }
    ensures loops { result.1.loops ≡ loops.entry.now }
    ensures dry { B.dry pass ≡ false → result.1.dry ≡ B.dry result.0 }
    ensures count { IsTrue B.tells → (B.view result.0).count ≡ (B.view pass).count }
    ensures worked { IsTrue B.tells → IsUnused (B.view pass) → WorkedAs pieces.now (B.view result.0) result.1 }
    ensures ends_dry { IsTrue B.tells → IsUnused (B.view pass) → IsTrue (G.always_goes_on gate.now) → IsTrue (B.dry result.0) }
{
    let mut report = report_of(alloc, loops);
    for _ in 0..pieces.number() + 1 {
        if !gate.go_on(worker) {
            break;
        }
        let Some(number) = board.draw(&mut pass) else {
            go_dry(&mut report);
            break;
        };
        gate.at_piece(worker, number);
        turn::<B>(alloc, board, &mut pass, &mut report, pieces.piece(number));
    }
    (pass, report)
}
