//! The form of a line of a text of solutions, by its words alone.

ghost use Rattle.std.specs.Prelude.{◌≡◌};
ghost use Rattle.problem_lines.specs.SolutionLines.{solution_line_form, solution_rest};
ghost use Rattle.problem_lines.specs.SolutionParsed.{solution_rest_seen, solution_seen};
ghost use Rattle.loop_lines.specs.Columns.{placed_words};
ghost use Rattle.problem_lines.specs.declared.keyword.SolutionKeyword.TheVariants as keywords;

use crate::fault::LineFault;
use crate::keyword::{SolutionKeyword, solution_keyword_of};
use crate::left::Left;
use crate::number::Number;
use crate::word::Word;
use problem_faults::Expected;

/// What a line of a text of solutions says.
#[derive(Clone, Copy)]
pub enum SolutionForm<'a> {
    /// `solution NAME ii NUM`: its name and its interval.
    Solution(Word<'a>, Number),
    /// `op NAME time NUM by NUM`: the operation, its issue time and its alternative.
    Op(Word<'a>, Number, Number),
    /// `value NAME number NUM`: the value and its number.
    Value(Word<'a>, Number),
    /// `end`
    End,
}

/// A line of a text of solutions that says something.
#[derive(Clone, Copy)]
pub struct SolutionLine<'a> {
    /// The column of its keyword's first byte, from 1.
    pub column: usize,
    /// How many bytes its keyword has.
    pub width: usize,
    /// What it says.
    pub form: SolutionForm<'a>,
}

/// What a line of a text of solutions says, or its first fault by its words alone. `None` where it has no words.
///
/// # Errors
/// The words have none of the forms.
pub fn solution_line_of(line: &[u8]) -> Result<Option<SolutionLine<'_>>, LineFault>
    ensures { solution_seen result ≡ solution_line_form (placed_words line.now) }
{
    let mut left = Left::new(line);
    let Some(word) = left.next() else {
        return Ok(None);
    };
    let Some(keyword) = solution_keyword_of(word.bytes) else {
        return Err(LineFault {
            column: word.column,
            width: word.bytes.len(),
            what: Expected::SolutionKeyword,
        });
    };
    let form = rest_after(keyword, &mut left)?;
    Ok(Some(SolutionLine {
        column: word.column,
        width: word.bytes.len(),
        form,
    }))
}

/// What a line says after its keyword.
fn rest_after<'a>(
    keyword: SolutionKeyword,
    left: &mut Left<'a>,
) -> Result<SolutionForm<'a>, LineFault>
    ensures { solution_rest_seen result ≡ solution_rest keyword left.old }
{
    match keyword {
        SolutionKeyword::Solution => begin_line(left),
        SolutionKeyword::Op => time_line(left),
        SolutionKeyword::Value => number_line(left),
        SolutionKeyword::End => end_line(left),
    }
}

/// `solution NAME ii NUM`
fn begin_line<'a>(left: &mut Left<'a>) -> Result<SolutionForm<'a>, LineFault>
    ensures { solution_rest_seen result ≡ solution_rest keywords.Solution left.old }
{
    let name = left.name()?;
    let ii = left.last_number(Expected::Ii)?;
    Ok(SolutionForm::Solution(name, ii))
}

/// `op NAME time NUM by NUM`
fn time_line<'a>(left: &mut Left<'a>) -> Result<SolutionForm<'a>, LineFault>
    ensures { solution_rest_seen result ≡ solution_rest keywords.Op left.old }
{
    let name = left.name()?;
    let time = left.number_after(Expected::Time)?;
    let alternative = left.last_number(Expected::By)?;
    Ok(SolutionForm::Op(name, time, alternative))
}

/// `value NAME number NUM`
fn number_line<'a>(left: &mut Left<'a>) -> Result<SolutionForm<'a>, LineFault>
    ensures { solution_rest_seen result ≡ solution_rest keywords.Value left.old }
{
    let name = left.name()?;
    let number = left.last_number(Expected::NumberWord)?;
    Ok(SolutionForm::Value(name, number))
}

/// `end`
fn end_line<'a>(left: &mut Left<'a>) -> Result<SolutionForm<'a>, LineFault>
    ensures { solution_rest_seen result ≡ solution_rest keywords.End left.old }
{
    left.finish()?;
    Ok(SolutionForm::End)
}
