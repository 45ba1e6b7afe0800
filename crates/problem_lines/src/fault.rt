//! What is wrong with a line by its words alone.

use problem_faults::Expected;
use std::fmt;

/// The first fault of a line by its words alone.
#[derive(Clone, Copy, Debug, PartialEq, Eq)]
pub struct LineFault {
    /// The column, from 1, of the first byte of the word at fault. Where a word is missing, the column after the
    /// last byte of the line's last word.
    pub column: usize,
    /// How many bytes the word at fault has: 0 where a word is missing.
    pub width: usize,
    /// What has to stand there.
    pub what: Expected,
}

impl fmt::Display for LineFault {
    ghost use Rattle.std.specs.Prelude.{Some};
    ghost use Rattle.problem_lines.specs.Texts.{fault_text};

    ghost output = { λ fault. Some (fault_text fault) };

    fn fmt<W: fmt::Write>(&self, f: &mut fmt::Formatter<W>) -> fmt::Result {
        let column = self.column;
        let what = self.what;
        write!(f, "column {column}: {what}")
    }
}

impl std::error::Error for LineFault {}
