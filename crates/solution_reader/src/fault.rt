//! Why a line of a text of solutions is not taken in.

ghost use Rattle.std.specs.Prelude.{◌≡◌};
ghost use Rattle.solution_reader.specs.Meaning.{at_line};
ghost use Rattle.solution_reader.specs.declared.fault.Refusal.TheVariants.{Memory};

use problem_faults::refused_solutions::{SolutionFault, Wrong};
use std::alloc::AllocFailed;

/// A fault of a line: where, and what.
#[derive(Clone, Copy)]
pub(crate) struct Told {
    /// The column of the first byte of the word at fault, from 1.
    pub(crate) column: usize,
    /// How many bytes the word at fault has.
    pub(crate) width: usize,
    /// What is wrong.
    pub(crate) what: Wrong,
}

/// Why a line is not taken in.
#[derive(Clone, Copy)]
pub(crate) enum Refusal {
    /// This is its first fault.
    Fault(Told),
    /// Memory ran out. This says nothing of the line.
    Memory,
}

impl<T: Drop> From<AllocFailed<T>> for Refusal {
    ghost from_gives = { λ _ refusal. refusal ≡ Memory };

    fn from(_error: AllocFailed<T>) -> Refusal {
        Refusal::Memory
    }
}

/// The fault of a text whose line of this number has this fault.
pub(crate) fn at_line(line: usize, told: Told) -> SolutionFault
    ensures { result ≡ at_line line told }
{
    SolutionFault {
        line,
        column: told.column,
        width: told.width,
        what: told.what,
    }
}
