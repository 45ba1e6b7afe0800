//! A board of shared words: no step on it waits, tries again or takes memory.
ghost use Rattle.std.specs.Prelude.{◌≡◌, ◌+◌, ◌≤◌, []};
ghost use Rattle.board.specs.Views.{is_dry, beyond};
ghost use Rattle.board.specs.Names.{terms_of};

use crate::Board;
use crate::rule::{Draw, Fair, Look, Post};
use crate::view::{Terms, View};
use atomic_table::{Seat, Table};
use std::alloc::Global;

mod closing;
mod opening;

pub use closing::{Closed, Stranger};

/// Word 0 is the next number, and word 1 + l the least interval posted for the loop l, or the greatest
/// u64 for none.
#[derive(Drop)]
pub struct WordBoard {
    tag: u64,
    loops: usize,
    pieces: u64,
    passes: usize,
    table: Table<(), View, Terms, Fair, Global>,
    ghost sizes: { table.shared.key ≡ terms_of loops pieces passes },
    ghost words: { table.shared.table_id.words ≡ loops + 1 },
    ghost slots: { table.shared.table_id.slots ≡ 0 },
    ghost some_pass: { 1 ≤ passes },
}

/// What one worker steps with. It may go to another thread.
#[derive(Drop)]
pub struct WordPass {
    tag: u64,
    pieces: u64,
    dry: bool,
    seat: Seat<(), View>,
    ghost no_slots: { seat.me.1 ≡ [] },
    ghost one_part: { seat.me.0.count ≡ 1 },
    ghost within: { beyond pieces seat.me.0.drawn ≤ 1 },
    ghost dryness: { dry ≡ is_dry pieces seat.me.0 },
}

// What a word means that no interval was posted to.
const NONE: u64 = u64::MAX;

impl WordPass {
    /// The tag of the board that the pass was made with.
    pub fn tag(&self) -> u64
        ensures { result ≡ self.now.tag }
    {
        self.tag
    }
}

impl Board for WordBoard {
    type Pass = WordPass;

    ghost use Rattle.std.specs.Prelude.{true};
    ghost use Rattle.board.specs.Boards.{IsPassOf, dry_as_view};

    ghost loops = { λ b. b.loops };

    ghost pieces = { λ b. b.pieces };

    ghost is_of = { IsPassOf };

    ghost dry = { λ p. p.dry };

    ghost tells = { true };

    ghost view = { λ p. p.seat.me.0 };

    fn draw(&self, pass: &mut WordPass) -> Option<u64> {
        if pass.dry {
            return None;
        }
        let number = self.table.shared.fetch_add::<Draw>(&mut pass.seat, 0, 1);
        pass.dry = number >= self.pieces;
        if pass.dry { None } else { Some(number) }
    }

    fn look(&self, pass: &mut WordPass, loop_number: usize) -> Option<u64> {
        let word = self
            .table
            .shared
            .load::<Look>(&mut pass.seat, 1 + loop_number);
        if word == NONE { None } else { Some(word) }
    }

    fn post(&self, pass: &mut WordPass, loop_number: usize, interval: u64) {
        self.table
            .shared
            .fetch_min::<Post>(&mut pass.seat, 1 + loop_number, interval);
    }

    ghost dry_as_told = { λ board pass of _. dry_as_view board pass of };
}
