//! What is wrong with a line of a text of scheduling problems.

ghost use Rattle.std.specs.Prelude.{◌≡◌};
ghost use Rattle.problem_tables.specs.declared.fault.Refusal.TheVariants.{Memory};

use machine_data::OutOfMemory;
use problem_faults::refused_problems::Wrong;
use std::alloc::AllocFailed;

/// A fault of a line: where, and what.
#[derive(Clone, Copy)]
pub struct Told {
    /// The column of the first byte of the word at fault, from 1.
    pub column: usize,
    /// How many bytes the word at fault has.
    pub width: usize,
    /// What is wrong.
    pub what: Wrong,
}

/// Why a line is not taken in.
#[derive(Clone, Copy)]
pub enum Refusal {
    /// This is its first fault.
    Fault(Told),
    /// Memory ran out. This says nothing of the line.
    Memory,
}

impl From<OutOfMemory> for Refusal {
    ghost from_gives = { λ _ refusal. refusal ≡ Memory };

    fn from(_error: OutOfMemory) -> Refusal {
        Refusal::Memory
    }
}

impl<T: Drop> From<AllocFailed<T>> for Refusal {
    ghost from_gives = { λ _ refusal. refusal ≡ Memory };

    fn from(_error: AllocFailed<T>) -> Refusal {
        Refusal::Memory
    }
}
