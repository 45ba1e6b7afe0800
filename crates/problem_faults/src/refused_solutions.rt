//! Why a text of solutions is refused.

ghost use Rattle.std.specs.Prelude.{◌≡◌};
ghost use Rattle.problem_faults.specs.SolutionTexts.{owner_text};

use crate::expected::Expected;
use std::fmt;

/// What there may be too many of, or what a name has to be of.
#[derive(Clone, Copy, Debug, PartialEq, Eq)]
pub enum Part {
    Solutions,
    Operations,
    Values,
}

impl Part {
    /// What a name of this part has to be that of.
    fn owner(self) -> &'static str
        ensures { result.now ≡ owner_text self }
    {
        match self {
            Part::Solutions => "problem",
            Part::Operations => "operation",
            Part::Values => "value",
        }
    }
}

impl fmt::Display for Part {
    ghost use Rattle.std.specs.Prelude.{Some};
    ghost use Rattle.problem_faults.specs.SolutionTexts.{part_text};

    ghost output = { λ part. Some (part_text part) };

    fn fmt<W: fmt::Write>(&self, f: &mut fmt::Formatter<W>) -> fmt::Result {
        f.write_str(match self {
            Part::Solutions => "solution",
            Part::Operations => "operation",
            Part::Values => "value",
        })
    }
}

/// What is wrong with a line, or with a whole text.
#[derive(Clone, Copy, Debug, PartialEq, Eq)]
pub enum Wrong {
    /// The text has more than 16,777,216 bytes.
    TextSize,
    /// The word has none of the forms: this has to stand in its place.
    Form(Expected),
    /// The line may not stand here.
    Place,
    /// There is one more of a part than there may be.
    Count(Part),
    /// The text has a solution of this name already, or the solution a line of it.
    Repeated,
    /// No problem, or no operation or value of the problem, has this name.
    Unknown(Part),
    /// The text ends inside a solution.
    NoEnd,
    /// Memory ran out. This says nothing of the text.
    Memory,
}

impl fmt::Display for Wrong {
    ghost use Rattle.std.specs.Prelude.{Some};
    ghost use Rattle.problem_faults.specs.SolutionTexts.{wrong_text};

    ghost output = { λ wrong. Some (wrong_text wrong) };

    fn fmt<W: fmt::Write>(&self, f: &mut fmt::Formatter<W>) -> fmt::Result {
        f.write_str(match *self {
            Wrong::Form(expected) => return write!(f, "{expected}"),
            Wrong::Count(part) => return write!(f, "number of {part}s out of range"),
            Wrong::Unknown(part) => {
                let owner = part.owner();
                return write!(f, "unknown {owner}");
            }
            Wrong::TextSize => "more than 16777216 bytes",
            Wrong::Place => "this line may not stand here",
            Wrong::Repeated => "there already",
            Wrong::NoEnd => "the text ends inside a solution",
            Wrong::Memory => "out of memory",
        })
    }
}

/// The first line at fault and its first fault.
#[derive(Clone, Copy, Debug, PartialEq, Eq)]
pub struct SolutionFault {
    /// The line's number, from 1; 0 where the text is too long or memory ran out.
    pub line: usize,
    /// The column of the first byte of the word at fault, from 1; where a word is missing, and after the last line,
    /// the column where it would stand. 0 where the line is 0.
    pub column: usize,
    /// How many bytes the word at fault has: 0 where none is there.
    pub width: usize,
    /// What is wrong.
    pub what: Wrong,
}

/// Prints `LINE:COLUMN: ` and what is wrong; of line 0 what is wrong alone.
impl fmt::Display for SolutionFault {
    ghost use Rattle.std.specs.Prelude.{Some};
    ghost use Rattle.problem_faults.specs.SolutionTexts.{fault_text};

    ghost output = { λ fault. Some (fault_text fault) };

    fn fmt<W: fmt::Write>(&self, f: &mut fmt::Formatter<W>) -> fmt::Result {
        let what = self.what;
        if self.line == 0 {
            return write!(f, "{what}");
        }
        let line = self.line;
        let column = self.column;
        write!(f, "{line}:{column}: {what}")
    }
}

impl std::error::Error for SolutionFault {}
