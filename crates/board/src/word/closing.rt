//! A board is closed over all of its passes.
ghost use Rattle.std.specs.Prelude.{◌≡◌, ◌+◌, ◌<◌, ◌≤◌, ◌↔◌, ℕ, All, Any, IsOk, IsTrue, IfOk, IfErr, IfSome, IsSome, map, vec_len};
ghost use Rattle.board.specs.Last.{IsWhole};
ghost use Rattle.board.specs.Views.{is_dry};
ghost use Rattle.board.specs.Rule.{Rule, times_drawn, next_of, least_of};
ghost use Rattle.board.specs.inner.Together.{IsTogether};
ghost use Rattle.board.specs.Boards.{tag_of, sizes_of, pass_tag_of, view_of, IsPassOf};

use super::{NONE, WordBoard, WordPass};
use crate::rule::TakeIn;
use crate::view::View;
use atomic_table::Seat;
use std::alloc::Global;
use std::error::Error;
use std::fmt;

/// A pass of another board was handed in, or too few came back. Nothing has changed.
#[derive(Drop)]
pub struct Stranger {
    pub board: WordBoard,
    pub passes: Vec<WordPass>,
}

impl fmt::Debug for Stranger {
    fn fmt<W: fmt::Write>(&self, f: &mut fmt::Formatter<W>) -> fmt::Result {
        f.debug_struct("Stranger").finish_non_exhaustive()
    }
}

impl fmt::Display for Stranger {
    ghost use Rattle.std.specs.Prelude.{codes, Some};

    ghost output = { λ _. Some (codes "a pass of another board, or too few passes") };

    fn fmt<W: fmt::Write>(&self, f: &mut fmt::Formatter<W>) -> fmt::Result {
        f.write_str("a pass of another board, or too few passes")
    }
}

impl Error for Stranger {}

/// The words of a board that nobody shares any more.
pub struct Closed {
    table: atomic_table::Closed<(), Global>,
    loops: usize,
    ghost whole: { IsWhole loops table },
}

// Whether each pass carries the tag.
fn all_carry(passes: &[WordPass], tag: u64) -> bool
    ensures { IsTrue result ↔ All (λ p. pass_tag_of p ≡ tag) passes.now }
{
    passes.iter().all(|pass| pass.tag == tag)
}

impl WordBoard {
    ghost use Rattle.board.specs.Closes.{words_of, loops_of};

    /// Ends the board, once all of its passes are back.
    ///
    /// # Errors
    /// `Stranger` where a pass carries another tag, or fewer passes come back than were made.
    pub fn close(self, passes: Vec<WordPass>) -> Result<Closed, Stranger>
        requires { All (λ p. pass_tag_of p ≡ tag_of self → IsPassOf self p) passes.items }
        ensures closed { IsOk result ↔ (All (λ p. pass_tag_of p ≡ tag_of self) passes.items
            × ((sizes_of self).passes ≤ vec_len passes)) }
        ensures stranger { IfErr result (λ s. (s.board ≡ self) × (s.passes.items ≡ passes.items)) }
        ensures loops { IfOk result (λ c. loops_of c ≡ (sizes_of self).loops) }
        ensures rule { IfOk result (λ c. Rule (sizes_of self) (words_of c) (map view_of passes.items)) }
        ensures once { IfOk result (λ c.
            Any (λ p. IsTrue (is_dry (sizes_of self).pieces (view_of p))) passes.items
            → (x : ℕ) → x < (sizes_of self).pieces
            → times_drawn (map view_of passes.items) x ≡ 1) }
    {
        if passes.len() < self.passes || !all_carry(&passes, self.tag) {
            return Err(Stranger {
                board: self,
                passes,
            });
        }
        let Some(seat) = self.take_in(passes) else {
            unreachable!()
        };
        let WordBoard {
            tag: _,
            loops,
            pieces: _,
            passes: _,
            table,
        } = self;
        let table = table.close_with(seat);
        Ok(Closed { table, loops })
    }

    // One seat that stands for all of the passes.
    fn take_in(&self, mut passes: Vec<WordPass>) -> Option<Seat<(), View>>
        requires { All (IsPassOf self.now) passes.items }
        ensures some { 0 < vec_len passes → IsSome result }
        ensures table { IfSome result (λ s. s.table_id ≡ self.now.table.shared.table_id) }
        ensures together { IfSome result (λ s. IsTogether s.me.0 (map view_of passes.items)) }
    {
        let WordPass {
            tag: _,
            pieces: _,
            dry: _,
            mut seat,
        } = passes.pop()?;
        while let Some(pass) = passes.pop() {
            self.table.shared.join_seat::<TakeIn>(&mut seat, pass.seat);
        }
        Some(seat)
    }
}

impl Closed {
    ghost use Rattle.board.specs.Closes.{words_of, loops_of};

    /// How many numbers were drawn, those past the last piece too.
    pub fn drawn(&self) -> u64
        ensures { result ≡ next_of (words_of self.now) }
    {
        self.table.word(0)
    }

    /// The least interval posted for the loop, or `None`.
    pub fn least(&self, loop_number: usize) -> Option<u64>
        requires { loop_number < loops_of self.now }
        ensures { result ≡ least_of (words_of self.now) loop_number }
    {
        let word = self.table.word(1 + loop_number);
        if word == NONE { None } else { Some(word) }
    }
}

impl Drop for Closed {
    fn drop(self) {
        let Self { table, loops: _ } = self;
        table.free();
    }
}
