//! Numbers where they stand in a line.

ghost use Rattle.std.specs.Prelude.{◌≡◌, true, is_some};
ghost use Rattle.loop_lines.specs.Forms.{int_of, is_number};
ghost use Rattle.problem_lines.specs.Numbers.{integer_of, number_of};

use loop_lines::{int_of, number_of};

/// A number where it stands.
#[derive(Clone, Copy, PartialEq, Eq)]
pub struct Number {
    /// The number, or `u64::MAX` where it is above that.
    pub value: u64,
    /// The column of its first byte, from 1.
    pub column: usize,
    /// How many bytes it has.
    pub width: usize,
}

/// An integer where it stands.
#[derive(Clone, Copy, PartialEq, Eq)]
pub struct Integer {
    /// The integer, or `None` where it does not fit 64 bits.
    pub value: Option<i64>,
    /// The column of its first byte, from 1.
    pub column: usize,
    /// How many bytes it has.
    pub width: usize,
}

/// What a register file keeps its values in.
#[derive(Clone, Copy, PartialEq, Eq)]
pub enum Storage {
    /// This number of rotating registers.
    Rotating(Number),
    /// No registers of this file.
    Unallotted,
}

/// The number that digits are which stand at a column.
pub(crate) fn number_in(digits: &[u8], column: usize) -> Number
    requires { is_number digits.now ≡ true }
    ensures { result ≡ number_of (record { bytes = digits.now; column = column }) }
{
    Number {
        value: number_of(digits).unwrap_or(0),
        column,
        width: digits.len(),
    }
}

/// The integer that digits, or `-` and digits, are which stand at a column.
pub(crate) fn integer_in(word: &[u8], column: usize) -> Integer
    requires { is_some (int_of word.now) ≡ true }
    ensures { result ≡ integer_of (record { bytes = word.now; column = column }) }
{
    Integer {
        value: int_of(word).unwrap_or(None),
        column,
        width: word.len(),
    }
}
