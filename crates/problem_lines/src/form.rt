//! The form of a line, by its words alone.

ghost use Rattle.std.specs.Prelude.{◌≡◌};
ghost use Rattle.problem_lines.specs.Lines.{keyword_line, line_form};
ghost use Rattle.problem_lines.specs.Parsed.{result_seen, seen};
ghost use Rattle.loop_lines.specs.Columns.{placed_words};
ghost use Rattle.problem_lines.specs.declared.keyword.Keyword.TheVariants as keywords;

use crate::fault::LineFault;
use crate::keyword::{Keyword, is_text, keyword_of};
use crate::kinds::{Alternatives, take_holds};
use crate::left::Left;
use crate::lists::{UnitNames, take_units};
use crate::number::{Integer, Number, Storage};
use crate::word::Word;
use problem_faults::Expected;

/// What a line says.
#[derive(Drop)]
pub enum Form<'a> {
    /// `machine NAME`
    Machine(Word<'a>),
    /// `units NAME NAME ..`
    Units(UnitNames<'a>),
    /// `file NAME rotating NUM`, or `file NAME unallotted`
    File(Word<'a>, Storage),
    /// `kind NAME latency NUM | HOLD HOLD .. | ..`
    Kind(Word<'a>, Number, Alternatives<'a>),
    /// `problem NAME`
    Problem(Word<'a>),
    /// `op NAME KIND`: its name and its kind.
    Op(Word<'a>, Word<'a>),
    /// `value NAME of OP lands NUM in FILE`: its name, what makes it, when it lands, its file, and whether `out`
    /// follows.
    Value(Word<'a>, Word<'a>, Number, Word<'a>, bool),
    /// `read OP VALUE`, with the distance and the offset where they are told.
    Read(Word<'a>, Word<'a>, Option<Number>, Option<Number>),
    /// `edge OP OP delay INT distance NUM`
    Edge(Word<'a>, Word<'a>, Integer, Number),
    /// `end`
    End,
}

/// A line that says something.
#[derive(Drop)]
pub struct Line<'a> {
    /// The column of its keyword's first byte, from 1.
    pub column: usize,
    /// How many bytes its keyword has.
    pub width: usize,
    /// What it says.
    pub form: Form<'a>,
}

/// What a line says, or its first fault by its words alone. `None` where it has no words.
///
/// # Errors
/// The words have none of the forms.
pub fn line_of(line: &[u8]) -> Result<Option<Line<'_>>, LineFault>
    ensures { seen result ≡ line_form (placed_words line.now) }
{
    let mut left = Left::new(line);
    let Some(word) = left.next() else {
        return Ok(None);
    };
    let Some(keyword) = keyword_of(word.bytes) else {
        return Err(LineFault {
            column: word.column,
            width: word.bytes.len(),
            what: Expected::Keyword,
        });
    };
    let form = form_after(keyword, &mut left)?;
    Ok(Some(Line {
        column: word.column,
        width: word.bytes.len(),
        form,
    }))
}

/// What a line says after its keyword.
fn form_after<'a>(keyword: Keyword, left: &mut Left<'a>) -> Result<Form<'a>, LineFault>
    ensures { result_seen result ≡ keyword_line keyword left.old }
{
    match keyword {
        Keyword::Machine => machine_line(left),
        Keyword::Units => units_line(left),
        Keyword::File => file_line(left),
        Keyword::Kind => kind_line(left),
        Keyword::Problem => problem_line(left),
        Keyword::Op => op_line(left),
        Keyword::Value => value_line(left),
        Keyword::Read => read_line(left),
        Keyword::Edge => edge_line(left),
        Keyword::End => end_line(left),
    }
}

/// `machine NAME`
fn machine_line<'a>(left: &mut Left<'a>) -> Result<Form<'a>, LineFault>
    ensures { result_seen result ≡ keyword_line keywords.Machine left.old }
{
    let name = left.name()?;
    left.finish()?;
    Ok(Form::Machine(name))
}

/// `units NAME NAME ..`
fn units_line<'a>(left: &mut Left<'a>) -> Result<Form<'a>, LineFault>
    ensures { result_seen result ≡ keyword_line keywords.Units left.old }
{
    let names = left.copied();
    take_units(left)?;
    Ok(Form::Units(UnitNames::of(names)))
}

/// `file NAME rotating NUM`, or `file NAME unallotted`
fn file_line<'a>(left: &mut Left<'a>) -> Result<Form<'a>, LineFault>
    ensures { result_seen result ≡ keyword_line keywords.File left.old }
{
    let name = left.name()?;
    let storage = left.take(Expected::Storage)?;
    if is_text(storage.bytes, "rotating") {
        let registers = left.number()?;
        left.finish()?;
        return Ok(Form::File(name, Storage::Rotating(registers)));
    }
    left.finish()?;
    Ok(Form::File(name, Storage::Unallotted))
}

/// `kind NAME latency NUM | HOLD HOLD .. | ..`
fn kind_line<'a>(left: &mut Left<'a>) -> Result<Form<'a>, LineFault>
    ensures { result_seen result ≡ keyword_line keywords.Kind left.old }
{
    let name = left.name()?;
    left.take(Expected::Latency)?;
    let latency = left.number()?;
    let alternatives = left.copied();
    left.take(Expected::Bar)?;
    take_holds(left)?;
    Ok(Form::Kind(name, latency, Alternatives::of(alternatives)))
}

/// `problem NAME`
fn problem_line<'a>(left: &mut Left<'a>) -> Result<Form<'a>, LineFault>
    ensures { result_seen result ≡ keyword_line keywords.Problem left.old }
{
    let name = left.name()?;
    left.finish()?;
    Ok(Form::Problem(name))
}

/// `op NAME KIND`
fn op_line<'a>(left: &mut Left<'a>) -> Result<Form<'a>, LineFault>
    ensures { result_seen result ≡ keyword_line keywords.Op left.old }
{
    let name = left.name()?;
    let kind = left.name()?;
    left.finish()?;
    Ok(Form::Op(name, kind))
}

/// `value NAME of OP lands NUM in FILE`, after which `out` may follow
fn value_line<'a>(left: &mut Left<'a>) -> Result<Form<'a>, LineFault>
    ensures { result_seen result ≡ keyword_line keywords.Value left.old }
{
    let name = left.name()?;
    let maker = left.name_after(Expected::Of)?;
    let lands = left.number_after(Expected::Lands)?;
    let file = left.name_after(Expected::In)?;
    let out = left.take_out();
    left.finish()?;
    Ok(Form::Value(name, maker, lands, file, out))
}

/// `read OP VALUE`, after which a distance may follow, and an offset after that
fn read_line<'a>(left: &mut Left<'a>) -> Result<Form<'a>, LineFault>
    ensures { result_seen result ≡ keyword_line keywords.Read left.old }
{
    let reader = left.name()?;
    let value = left.name()?;
    if left.is_done() {
        return Ok(Form::Read(reader, value, None, None));
    }
    let distance = left.number_after(Expected::Distance)?;
    let offset = left.offset()?;
    Ok(Form::Read(reader, value, Some(distance), offset))
}

/// `edge OP OP delay INT distance NUM`
fn edge_line<'a>(left: &mut Left<'a>) -> Result<Form<'a>, LineFault>
    ensures { result_seen result ≡ keyword_line keywords.Edge left.old }
{
    let from = left.name()?;
    let to = left.name()?;
    left.take(Expected::Delay)?;
    let delay = left.integer()?;
    let distance = left.last_number(Expected::Distance)?;
    Ok(Form::Edge(from, to, delay, distance))
}

/// `end`
fn end_line<'a>(left: &mut Left<'a>) -> Result<Form<'a>, LineFault>
    ensures { result_seen result ≡ keyword_line keywords.End left.old }
{
    left.finish()?;
    Ok(Form::End)
}
