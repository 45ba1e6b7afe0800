//! The plain board: one lock round all of its numbers. Contracts hear nothing of what its passes did.
ghost use Rattle.std.specs.Prelude.{◌≡◌, ◌+◌, ◌<◌, ℕ, min, length, IfOk, Option, None, replicate, slice_get, slice_set};
ghost use Rattle.board.specs.Core.{smaller};

use crate::{Board, OutOfMemory};
use std::alloc::Global;
use std::sync::{Mutex, Wait};

mod opening;

// The next number, and the least interval posted for each loop.
#[derive(Drop)]
struct Numbers {
    next: u64,
    least: Vec<Option<u64>>,
}

/// A board whose calls wait for one another. It keeps the handle that waiting takes.
#[derive(Drop)]
pub struct LockedBoard<R: Wait> {
    rt: R,
    loops: usize,
    pieces: u64,
    numbers: Mutex<Numbers>,
}

/// What one worker steps with on a locked board.
#[derive(Drop)]
pub struct LockedPass {
    dry: bool,
}

impl Numbers {
    fn opening(alloc: Global, loops: usize) -> Result<Numbers, OutOfMemory>
        ensures next { IfOk result (λ n. n.next ≡ 0) }
        ensures least { IfOk result (λ n. n.least.items ≡ replicate loops None) }
    {
        let least = vec![in alloc; None; loops]?;
        Ok(Numbers { next: 0, least })
    }

    // The next number, which then rises by one, or stays at the greatest u64.
    fn draw(&mut self) -> u64
        ensures answer { result ≡ self.old.next }
        ensures next { self.new.next ≡ min (self.old.next + 1) 18446744073709551615 }
        ensures least { self.new.least ≡ self.old.least }
    {
        let number = self.next;
        self.next = number.saturating_add(1);
        number
    }

    fn look(&self, loop_number: usize) -> Option<u64>
        ensures { loop_number < length self.now.least.items
            → slice_get self.now.least.items loop_number ≡ Some result }
    {
        self.least.get(loop_number).copied().flatten()
    }

    // The least becomes the smaller of what it was and the interval.
    fn post(&mut self, loop_number: usize, interval: u64)
        ensures next { self.new.next ≡ self.old.next }
        ensures least { (known : Option ℕ) → slice_get self.old.least.items loop_number ≡ Some known
            → self.new.least.items
            ≡ slice_set self.old.least.items loop_number (smaller known interval) }
    {
        if let Some(least) = self.least.get_mut(loop_number) {
            *least = Some(least.map_or(interval, |known| known.min(interval)));
        }
    }
}

impl<R: Wait> Board for LockedBoard<R> {
    type Pass = LockedPass;

    ghost use Rattle.std.specs.Prelude.{false};
    ghost use Rattle.board.specs.Views.{blank};

    ghost loops = { λ b. b.loops };

    ghost pieces = { λ b. b.pieces };

    ghost is_of = { λ _ _. Unit {0} };

    ghost dry = { λ p. p.dry };

    ghost tells = { false };

    ghost view = { λ _. blank 0 };

    fn draw(&self, pass: &mut LockedPass) -> Option<u64> {
        if pass.dry {
            return None;
        }
        let number = self.numbers.lock(&self.rt).draw();
        pass.dry = number >= self.pieces;
        if pass.dry { None } else { Some(number) }
    }

    fn look(&self, _pass: &mut LockedPass, loop_number: usize) -> Option<u64> {
        self.numbers.lock(&self.rt).look(loop_number)
    }

    fn post(&self, _pass: &mut LockedPass, loop_number: usize, interval: u64) {
        self.numbers.lock(&self.rt).post(loop_number, interval);
    }

    ghost use Rattle.std.proofs.lemmas.Bool.{false≢true};

    ghost dry_as_told = { λ _ _ _ told. absurd (false≢true told) };
}
