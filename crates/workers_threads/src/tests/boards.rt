//! Boards of a caller, which tell nothing of what is drawn.

ghost use Rattle.std.specs.Prelude.{false};
ghost use Rattle.std.proofs.lemmas.Bool.{false≢true};
ghost use Rattle.board.specs.Views.{blank};

use board::Board;

/// How often its worker drew, and whether it draws no more.
#[derive(Drop)]
pub(super) struct Count {
    pub(super) draws: u64,
    dry: bool,
}

impl Count {
    /// No draw yet.
    pub(super) fn new() -> Count {
        Count {
            draws: 0,
            dry: false,
        }
    }
}

/// A board of 3 loops and 12 pieces. It gives the pieces in order up to a last one, and then that one again and again.
pub(super) struct Strange {
    /// How often it gives a piece.
    pub(super) draws: u64,
    pub(super) last: u64,
    /// What it answers to each look.
    pub(super) least: Option<u64>,
}

impl Board for Strange {
    type Pass = Count;

    ghost loops = { λ _. 3 };

    ghost pieces = { λ _. 12 };

    ghost is_of = { λ _ _. Unit {0} };

    ghost dry = { λ p. p.dry };

    ghost tells = { false };

    ghost view = { λ _. blank 0 };

    fn draw(&self, pass: &mut Count) -> Option<u64> {
        if pass.dry || pass.draws >= self.draws {
            pass.dry = true;
            return None;
        }
        pass.draws += 1;
        Some((pass.draws - 1).min(self.last).min(11))
    }

    fn look(&self, _pass: &mut Count, _loop_number: usize) -> Option<u64> {
        self.least
    }

    fn post(&self, _pass: &mut Count, _loop_number: usize, _interval: u64) {}

    ghost dry_as_told = { λ _ _ _ told. absurd (false≢true told) };
}
