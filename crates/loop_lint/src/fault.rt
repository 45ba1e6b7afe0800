//! Faults with the words that they are about.

ghost use Rattle.std.specs.Prelude.{◌≡◌};
ghost use Rattle.loop_lint.specs.Lints.{fault_at, no_end, too_long};

use crate::spots::Spot;
use loop_reader::LoopFaultKind;
use near_names::Word;

/// What helps to mend a fault.
#[derive(Drop)]
pub enum Hint {
    /// Nothing.
    Nothing,
    /// The nearest of the names that may stand there.
    Name(Word),
    /// The numbers of the initial values that are missing, a byte for each, ascending.
    Inits(Word),
}

/// A fault of a line of a loop text, and the word that it is about.
#[derive(Drop)]
pub struct LintFault {
    /// The line's number, from 1; 0 for a text that is too long. A text that ends inside a loop is told so of the line
    /// after its last.
    pub line: usize,
    /// The column of the word's first byte, from 1. Where a word is missing, the column after the last byte of the line's
    /// last word; where the text ends, 1; where the line is 0, 0.
    pub column: usize,
    /// How many bytes the word has: 0 where none is there.
    pub width: usize,
    /// What is wrong. It is never lack of memory.
    pub kind: LoopFaultKind,
    /// What helps to mend it.
    pub hint: Hint,
}

impl LintFault {
    /// A fault of a line, at a spot of it.
    pub(crate) fn at(line: usize, kind: LoopFaultKind, spot: Spot, hint: Hint) -> LintFault
        ensures { result ≡ fault_at line kind spot hint }
    {
        LintFault {
            line,
            column: spot.column,
            width: spot.width,
            kind,
            hint,
        }
    }

    /// A text that is too long.
    pub(crate) fn too_long() -> LintFault
        ensures { result ≡ too_long }
    {
        LintFault {
            line: 0,
            column: 0,
            width: 0,
            kind: LoopFaultKind::Limit,
            hint: Hint::Nothing,
        }
    }

    /// The text ends inside a loop, before the line of this number.
    pub(crate) fn no_end(line: usize) -> LintFault
        ensures { result ≡ no_end line }
    {
        LintFault {
            line,
            column: 1,
            width: 0,
            kind: LoopFaultKind::NoEnd,
            hint: Hint::Nothing,
        }
    }
}
