//! Why a text of scheduling problems is refused.

use crate::expected::Expected;
use std::fmt;

/// What there may be too many of, or what a name stands for.
#[derive(Clone, Copy, Debug, PartialEq, Eq)]
pub enum Part {
    Problems,
    Units,
    Files,
    Kinds,
    Alternatives,
    Holds,
    Operations,
    Values,
    Reads,
    Edges,
}

impl fmt::Display for Part {
    ghost use Rattle.std.specs.Prelude.{Some};
    ghost use Rattle.problem_faults.specs.ProblemTexts.{part_text};

    ghost output = { λ part. Some (part_text part) };

    fn fmt<W: fmt::Write>(&self, f: &mut fmt::Formatter<W>) -> fmt::Result {
        f.write_str(match self {
            Part::Problems => "problem",
            Part::Units => "unit",
            Part::Files => "file",
            Part::Kinds => "kind",
            Part::Alternatives => "alternative",
            Part::Holds => "hold",
            Part::Operations => "operation",
            Part::Values => "value",
            Part::Reads => "read",
            Part::Edges => "edge",
        })
    }
}

/// What is wrong with a line, or with a whole text.
#[derive(Clone, Copy, Debug, PartialEq, Eq)]
pub enum Wrong {
    /// The text has more than 16,777,216 bytes.
    TextSize,
    /// The word has none of the forms: this has to stand in its place.
    Form(Expected),
    /// The line may not stand here.
    Place,
    /// There is one more of a part than there may be; or at an `end`, none of an operation.
    Count(Part),
    /// The number is out of its range.
    Range,
    /// The name is declared already, or the hold is there already.
    Repeated,
    /// No line before declares the name as such.
    Unknown(Part),
    /// Within an iteration the first operation does not come before the second.
    Backward,
    /// The text ends inside a problem.
    NoEnd,
    /// Memory ran out. This says nothing of the text.
    Memory,
}

impl fmt::Display for Wrong {
    ghost use Rattle.std.specs.Prelude.{Some};
    ghost use Rattle.problem_faults.specs.ProblemTexts.{wrong_text};

    ghost output = { λ wrong. Some (wrong_text wrong) };

    fn fmt<W: fmt::Write>(&self, f: &mut fmt::Formatter<W>) -> fmt::Result {
        f.write_str(match *self {
            Wrong::Form(expected) => return write!(f, "{expected}"),
            Wrong::Count(part) => return write!(f, "number of {part}s out of range"),
            Wrong::Unknown(part) => return write!(f, "unknown {part}"),
            Wrong::TextSize => "more than 16777216 bytes",
            Wrong::Place => "this line may not stand here",
            Wrong::Range => "number out of range",
            Wrong::Repeated => "there already",
            Wrong::Backward => "goes backward within an iteration",
            Wrong::NoEnd => "the text ends inside a problem",
            Wrong::Memory => "out of memory",
        })
    }
}

/// The first line at fault and its first fault.
#[derive(Clone, Copy, Debug, PartialEq, Eq)]
pub struct TextFault {
    /// The line's number, from 1; 0 where the text is too long or memory ran out.
    pub line: usize,
    /// The column of the first byte of the word at fault, from 1; where a word is missing, and after the last line, the
    /// column where it would stand. 0 where the line is 0.
    pub column: usize,
    /// How many bytes the word at fault has: 0 where none is there.
    pub width: usize,
    /// What is wrong.
    pub what: Wrong,
}

/// Prints `LINE:COLUMN: ` and what is wrong; of line 0 what is wrong alone.
impl fmt::Display for TextFault {
    ghost use Rattle.std.specs.Prelude.{Some};
    ghost use Rattle.problem_faults.specs.ProblemTexts.{fault_text};

    ghost output = { λ fault. Some (fault_text fault) };

    fn fmt<W: fmt::Write>(&self, f: &mut fmt::Formatter<W>) -> fmt::Result {
        let what = self.what;
        if self.line == 0 {
            return write!(f, "{what}");
        }
        let line = self.line;
        let column = self.column;
        write!(f, "{line}:{column}: {what}")
    }
}

impl std::error::Error for TextFault {}
