//! A board and its passes are made.
ghost use Rattle.std.specs.Prelude.{◌≡◌, ◌≤◌, ◌∷◌, [], All, IfOk, replicate, vec_len};
ghost use Rattle.board.specs.Views.{blank};
ghost use Rattle.board.specs.Names.{terms_of};
ghost use Rattle.board.specs.Boards.{tag_of, sizes_of, IsNewPassOf};

use super::{NONE, WordBoard, WordPass};
use crate::OutOfMemory;
use crate::rule::Issue;
use crate::view::{Terms, View};
use atomic_table::{Seat, Table};
use std::alloc::Global;

// No number is drawn yet, and no interval posted.
fn opening_words(alloc: Global, loops: usize) -> Result<Vec<u64>, OutOfMemory>
    requires { loops ≤ 1024 }
    ensures { IfOk result (λ w. w.items ≡ 0 ∷ replicate loops 18446744073709551615) }
{
    let mut words = vec![in alloc; NONE; loops + 1]?;
    words[0] = 0;
    Ok(words)
}

impl WordBoard {
    /// A board for `loops` loops and `pieces` pieces, with just `passes` passes. The tag is whatever
    /// tells it from other boards.
    pub fn new(
        alloc: Global,
        tag: u64,
        loops: usize,
        pieces: u64,
        passes: usize,
    ) -> Result<(WordBoard, Vec<WordPass>), OutOfMemory>
        requires loops { loops ≤ 1024 }
        requires pieces { pieces ≤ 262144 }
        requires some_pass { 1 ≤ passes }
        requires passes { passes ≤ 64 }
        ensures tag { IfOk result (λ r. tag_of r.0 ≡ tag) }
        ensures sizes { IfOk result (λ r. sizes_of r.0 ≡ terms_of loops pieces passes) }
        ensures count { IfOk result (λ r. vec_len r.1 ≡ passes) }
        ensures passes { IfOk result (λ r. All (IsNewPassOf r.0) r.1.items) }
    {
        let words = opening_words(alloc, loops)?;
        let terms = Terms {
            loops,
            pieces,
            passes,
        };
        let (table, first) = Table::of_words(alloc, &words, &terms)?;
        let board = WordBoard {
            tag,
            loops,
            pieces,
            passes,
            table,
        };
        let issued = board.issue(alloc, first)?;
        Ok((board, issued))
    }

    /// The tag that the board was made with.
    pub fn tag(&self) -> u64
        ensures { result ≡ self.now.tag }
    {
        self.tag
    }

    // Cuts the first seat, which stands for all passes, into one for each pass.
    fn issue(&self, alloc: Global, mut seat: Seat<(), View>) -> Result<Vec<WordPass>, OutOfMemory>
        requires table { seat.table_id ≡ self.now.table.shared.table_id }
        requires whole { seat.me ≡ (blank self.now.passes, []) }
        ensures count { IfOk result (λ v. vec_len v ≡ self.now.passes) }
        ensures passes { IfOk result (λ v. All (IsNewPassOf self.now) v.items) }
    {
        let mut issued = Vec::with_capacity(alloc, self.passes)?;
        for _made in 0..self.passes - 1 {
            let part = self.table.shared.split_seat::<Issue>(&mut seat);
            issued.push(self.pass(part))?;
        }
        issued.push(self.pass(seat))?;
        Ok(issued)
    }

    fn pass(&self, seat: Seat<(), View>) -> WordPass
        requires table { seat.table_id ≡ self.now.table.shared.table_id }
        requires one { seat.me ≡ (blank 1, []) }
        ensures { IsNewPassOf self.now result }
    {
        WordPass {
            tag: self.tag,
            pieces: self.pieces,
            dry: false,
            seat,
        }
    }
}
