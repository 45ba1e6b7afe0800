ghost use Rattle.std.specs.Prelude.{◌≡◌, ◌+◌, ◌≤◌, [], IsTrue, length};
ghost use Rattle.board.specs.Views.{is_dry};

use board::{Board, draws_end};

/// Draws until there is nothing left, or once more than there are pieces. Gives the pass back, with how
/// many pieces it drew.
pub fn drain<B: Board>(board: &B, mut pass: B::Pass, pieces: u64) -> (B::Pass, u64)
    requires of { B.is_of board.now pass }
    requires pieces { pieces ≡ B.pieces board.now }
    requires limit { pieces ≤ 262144 }
    requires fresh { IsTrue B.tells → (B.view pass).drawn ≡ [] }
    ensures of { B.is_of board.now result.0 }
    ensures ends_dry { IsTrue B.tells → IsTrue (B.dry result.0) }
    ensures view_dry { IsTrue B.tells → IsTrue (is_dry pieces (B.view result.0)) }
    ensures count { IsTrue B.tells → length (B.view result.0).drawn ≡ result.1 + 1 }
{
    draws_end();
    let mut count = 0;
    for _ in 0..pieces + 1 {
        if board.draw(&mut pass).is_none() {
            return (pass, count);
        }
        count += 1;
    }
    (pass, count)
}
