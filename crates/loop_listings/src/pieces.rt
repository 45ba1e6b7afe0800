//! How the intervals of loops are cut into pieces.
ghost use Rattle.std.specs.Prelude.{◌≡◌, ◌≤◌, ◌<◌, ◌+◌, ◌*◌, ◌/◌};
ghost use Rattle.loop_listings.specs.Pieces.{PiecesData, IsCutting, piece_count, loop_of_piece, start_of_piece, end_of_piece};
ghost use Rattle.machine_data.specs.declared.limits.TheConstants.{MAX_CEILING, MAX_CUT, MAX_LOOPS};

use std::marker::Model;

/// How the intervals of loops are cut into pieces, which workers draw by their numbers: the first piece of
/// each loop, in order, then the second of each, and so on. Contracts see the three numbers.
#[derive(Drop)]
pub struct Pieces {
    loops: usize,
    ceiling: u64,
    cut: u64,
    groups: u64,
}

/// A piece. Its intervals are counted from the loop's least one, which is 0, in cycles.
#[derive(Clone, Copy, PartialEq, Eq)]
pub struct Piece {
    /// The loop, by its number from 0.
    pub loop_number: usize,
    /// The first interval.
    pub start: u64,
    /// One more than the last interval.
    pub end: u64,
}

impl Model for Pieces {
    ghost Value = { PiecesData };

    ghost view = { λ p. record { loops = p.loops; ceiling = p.ceiling; cut = p.cut } };

    ghost invariant = { λ p. IsCutting (record { loops = p.loops; ceiling = p.ceiling; cut = p.cut }) × (p.groups ≡ (p.ceiling + p.cut) / p.cut) };
}

impl Pieces {
    /// `loops` loops, 0 to 1,024, each with the intervals from its least one to the one `ceiling` above
    /// it, 0 to 255. A piece has `cut` intervals of a loop, 1 to 256, or those that are left.
    pub fn of(loops: usize, ceiling: u64, cut: u64) -> Pieces
        requires loops { loops ≤ MAX_LOOPS }
        requires ceiling { ceiling ≤ MAX_CEILING }
        requires cut { (1 ≤ cut) × (cut ≤ MAX_CUT) }
        ensures { result ≡ record { loops = loops; ceiling = ceiling; cut = cut } }
    {
        Pieces {
            loops,
            ceiling,
            cut,
            groups: (ceiling + cut) / cut,
        }
    }

    /// How many loops there are.
    pub fn loops(&self) -> usize
        ensures value { result ≡ self.now.loops }
        ensures well_formed { IsCutting self.now }
    {
        self.loops
    }

    /// How many intervals above its least one each loop has.
    pub fn ceiling(&self) -> u64
        ensures value { result ≡ self.now.ceiling }
        ensures well_formed { IsCutting self.now }
    {
        self.ceiling
    }

    /// How many pieces there are, at most 262,144.
    pub fn number(&self) -> u64
        ensures value { result ≡ piece_count self.now }
        ensures few { result ≤ 262144 }
        ensures well_formed { IsCutting self.now }
    {
        self.loops as u64 * self.groups
    }

    /// The piece of that number.
    pub fn piece(&self, number: u64) -> Piece
        requires { number < piece_count self.now }
        ensures its_loop { result.loop_number ≡ loop_of_piece self.now number }
        ensures there { result.loop_number < self.now.loops }
        ensures start { result.start ≡ start_of_piece self.now number }
        ensures end { result.end ≡ end_of_piece self.now number }
        ensures some { result.start < result.end }
        ensures below { result.end ≤ self.now.ceiling + 1 }
        ensures well_formed { IsCutting self.now }
    {
        let group = number / self.loops as u64;
        Piece {
            loop_number: number as usize % self.loops,
            start: group * self.cut,
            end: ((group + 1) * self.cut).min(self.ceiling + 1),
        }
    }
}
