//! Where faults are told.

ghost use Rattle.std.specs.Prelude.{◌≡◌, List, ℕ, length};
ghost use Rattle.problem_lines.specs.Seen.{word_seen};
ghost use Rattle.problem_lines.specs.SolutionParsed.{solution_line_seen};
ghost use Rattle.solution_reader.specs.Faults.{on_line, on_word, room_at, unless};
ghost use Rattle.solution_reader.specs.inner.Taken.{on_spot};

use crate::fault::Told;
use problem_faults::refused_solutions::{Part, Wrong};
use problem_lines::{SolutionLine, Word};

/// The word that a fault is told on.
#[derive(Clone, Copy)]
pub(crate) struct Spot {
    pub(crate) column: usize,
    pub(crate) width: usize,
}

impl Spot {
    /// A word.
    pub(crate) fn of_word(word: Word<'_>) -> Spot
        ensures { on_spot result ≡ on_word (word_seen word.entry) }
    {
        Spot {
            column: word.column,
            width: word.bytes.len(),
        }
    }

    /// The keyword of a line.
    pub(crate) fn of_line(line: &SolutionLine<'_>) -> Spot
        ensures { on_spot result ≡ on_line (solution_line_seen line.now) }
    {
        Spot {
            column: line.column,
            width: line.width,
        }
    }

    /// This fault there.
    pub(crate) fn told(self, what: Wrong) -> Told
        ensures { result ≡ on_spot self what }
    {
        Told {
            column: self.column,
            width: self.width,
            what,
        }
    }

    /// The fault that there is no room for one more of a part.
    pub(crate) fn room(self, count: usize, most: usize, what: Part) -> Option<Told>
        ensures { result ≡ room_at (on_spot self) count most what }
    {
        if count < most {
            None
        } else {
            Some(self.told(Wrong::Count(what)))
        }
    }
}
