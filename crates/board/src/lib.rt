//! What workers share: the next piece to draw, and the least interval known to succeed for each loop.
//!
//! A `WordBoard` has one word for the next number and one for each loop. A draw is one `fetch_add`, a look one load and
//! a post one `fetch_min`: no step is tried again, none waits, none takes memory. Promised: each piece is drawn once; a
//! look answers an interval that some pass posted, never above what the pass itself posted or saw; and what the words
//! are when the board is closed. Not promised: that a pass gets on, an order between passes, or that a look sees what
//! another pass just posted. `LockedBoard` is the plain version under a lock, which may wait: only tests use it.
#![tactic(auto)]

ghost use Rattle.std.specs.Prelude.{◌≡◌, ℕ, ◌<◌, ◌≤◌, Bool, IsTrue, IfSome, is_none};
ghost use Rattle.board.specs.declared.view.View.{View};
ghost use Rattle.board.specs.Views.{DrawsUnlessDry, Looks, is_dry, with_posted};

mod law;
mod locked;
mod rule;
mod view;
mod word;

pub use law::{draws_end, dry_leaves_nothing, words_follow_events};
pub use locked::{LockedBoard, LockedPass};
pub use view::{Terms, View};
pub use word::{Closed, Stranger, WordBoard, WordPass};

/// Memory ran out.
pub type OutOfMemory = std::alloc::AllocError;

/// What workers share: the next piece, and for each loop the least interval posted.
pub trait Board {
    /// What one worker draws, looks and posts with. It cannot be copied.
    type Pass;

    // How many loops have a least interval, and how many pieces there are.
    ghost loops: { Self → ℕ };

    ghost pieces: { Self → ℕ };

    // The pass was made with this board.
    ghost is_of: { Self → Self.Pass → Type 0 };

    // The pass draws no more.
    ghost dry: { Self.Pass → Bool };

    // Whether the board tells what each pass did; and what a pass did so far, where the board tells it.
    ghost tells: { Bool };

    ghost view: { Self.Pass → View };

    /// The number of a piece, or `None` once there is none left, from when on the pass is dry. A dry pass
    /// draws no more.
    fn draw(&self, pass: &mut Self::Pass) -> Option<u64>
        requires { is_of self.now pass.old }
        ensures same_board { is_of self.now pass.new }
        ensures piece { IfSome result (λ n. n < pieces self.now) }
        ensures dries { dry pass.new ≡ is_none result }
        ensures stays_dry { IsTrue (dry pass.old) → IsTrue (dry pass.new) }
        ensures told { IsTrue tells
            → DrawsUnlessDry (pieces self.now) (view pass.old) result (view pass.new) };

    /// The least interval posted for the loop, as far as this pass can see, or `None`.
    fn look(&self, pass: &mut Self::Pass, loop_number: usize) -> Option<u64>
        requires of { is_of self.now pass.old }
        requires inside { loop_number < loops self.now }
        ensures same_board { is_of self.now pass.new }
        ensures same_dryness { dry pass.new ≡ dry pass.old }
        ensures told { IsTrue tells → Looks loop_number (view pass.old) result (view pass.new) };

    /// Makes it known that the loop succeeds at this interval.
    fn post(&self, pass: &mut Self::Pass, loop_number: usize, interval: u64)
        requires of { is_of self.now pass.old }
        requires inside { loop_number < loops self.now }
        requires interval { interval ≤ 16384 }
        ensures same_board { is_of self.now pass.new }
        ensures same_dryness { dry pass.new ≡ dry pass.old }
        ensures told { IsTrue tells → view pass.new ≡ with_posted (view pass.old) loop_number interval };

    // Where the board tells it, a pass is dry exactly where its view is.
    ghost dry_as_told: { (board : Self) (pass : Self.Pass) → is_of board pass → IsTrue tells
        → dry pass ≡ is_dry (pieces board) (view pass) };
}
