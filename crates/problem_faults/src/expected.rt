//! What has to stand in a line, where something else stands.

use std::fmt;

/// What has to stand where another word stands, or where the line ends.
#[derive(Clone, Copy, Debug, PartialEq, Eq)]
pub enum Expected {
    /// The first word of a line of a problem text.
    Keyword,
    /// A name of 1 to 64 bytes of printable ASCII, none of them `#`.
    Name,
    /// Such a name without `@` and `|`.
    UnitName,
    /// Digits.
    Number,
    /// Digits, or `-` and digits.
    Integer,
    /// `UNIT` or `UNIT@NUM`.
    Hold,
    /// `latency`
    Latency,
    /// `rotating` or `unallotted`
    Storage,
    /// `|`
    Bar,
    /// `of`
    Of,
    /// `lands`
    Lands,
    /// `in`
    In,
    /// `distance`
    Distance,
    /// `offset`
    Offset,
    /// `delay`
    Delay,
    /// The first word of a line of a text of solutions.
    SolutionKeyword,
    /// `ii`
    Ii,
    /// `time`
    Time,
    /// `by`
    By,
    /// `number`
    NumberWord,
    /// No word: this one is after the end of the form.
    Nothing,
}

impl fmt::Display for Expected {
    ghost use Rattle.std.specs.Prelude.{Some};
    ghost use Rattle.problem_faults.specs.Texts.{expected_text};

    ghost output = { λ what. Some (expected_text what) };

    fn fmt<W: fmt::Write>(&self, f: &mut fmt::Formatter<W>) -> fmt::Result {
        f.write_str(match self {
            Expected::Keyword => {
                "expected machine, units, file, kind, problem, op, value, read, edge or end"
            }
            Expected::Name => "expected a name of 1 to 64 printable characters",
            Expected::UnitName => "expected a name of 1 to 64 printable characters without @ and |",
            Expected::Number => "expected a number",
            Expected::Integer => "expected an integer",
            Expected::Hold => "expected UNIT or UNIT@NUMBER",
            Expected::Latency => "expected latency",
            Expected::Storage => "expected rotating or unallotted",
            Expected::Bar => "expected |",
            Expected::Of => "expected of",
            Expected::Lands => "expected lands",
            Expected::In => "expected in",
            Expected::Distance => "expected distance",
            Expected::Offset => "expected offset",
            Expected::Delay => "expected delay",
            Expected::SolutionKeyword => "expected solution, op, value or end",
            Expected::Ii => "expected ii",
            Expected::Time => "expected time",
            Expected::By => "expected by",
            Expected::NumberWord => "expected number",
            Expected::Nothing => "nothing may follow here",
        })
    }
}
