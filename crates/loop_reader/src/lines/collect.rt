//! The lines of a block, up to its end.

ghost use Rattle.std.specs.Prelude.{◌≡◌, ◌+◌, ◌≤◌, ◌<◌, ◌^◌, ◌++◌, ◌||◌, List, [], length, IfOk, OnOk};
ghost use Rattle.loop_lines.specs.Forms as spec;
ghost use Rattle.loop_reader.specs.Meaning.{stands, has_statement, has_out, is_statement, is_out, whole, forms_of};
ghost use Rattle.loop_lines.specs.Parsed.{form_seen};
ghost use Rattle.loop_reader.specs.inner.Blocks.{forms_in, StopsAt, StopsBlock, EndsBy, IsPast};
ghost use Rattle.loop_reader.specs.declared.lines.entry.LineEntry.{LineEntry};

use crate::lines::entry::LineEntry;
use loop_lines::{Form, form_of, next_line};
use machine_data::OutOfMemory;

/// Where the lines that stand in a block stop.
#[derive(Clone, Copy)]
pub(crate) enum Stop<'a> {
    /// At its `end`, which is the line of this number; with the text after it.
    End(usize, &'a [u8]),
    /// At a line that may not stand there, by its number; with the text after it.
    Unfit(usize, &'a [u8]),
    /// At the end of the text, which is after the line before this number.
    Open(usize),
}

/// Whether a line may stand in a loop, by the lines before it: by whether one of them is a statement, and whether one is an `out`.
#[inline(always)]
pub fn may_stand(form: &Form<'_>, statement: bool, out: bool) -> bool
    ensures { (before : List spec.Form) → has_statement before ≡ statement → has_out before ≡ out → result ≡ stands before (form_seen form.now) }
{
    match form {
        Form::Loop(_) | Form::Malformed => false,
        Form::Array(_, _) | Form::Param(_, _) | Form::Init(_, _, _) => !statement,
        Form::Statement(_) => !out,
        Form::Out(_) => statement,
        Form::End => true,
    }
}

/// Which lines a block has so far, as far as they decide what may stand after them.
#[derive(Clone, Copy)]
struct Seen {
    statement: bool,
    out: bool,
}

impl Seen {
    const NOTHING: Seen = Seen {
        statement: false,
        out: false,
    };

    /// The line may stand after these.
    fn allows(self, form: Form<'_>) -> bool
        ensures { (before : List spec.Form) → has_statement before ≡ self.statement → has_out before ≡ self.out
            → result ≡ stands before (form_seen form.entry) }
    {
        may_stand(&form, self.statement, self.out)
    }

    /// These lines and one more.
    fn with(self, form: Form<'_>) -> Seen
        ensures statement { result.statement ≡ (self.statement || is_statement (form_seen form.entry)) }
        ensures out { result.out ≡ (self.out || is_out (form_seen form.entry)) }
    {
        Seen {
            statement: self.statement || matches!(form, Form::Statement(_)),
            out: self.out || matches!(form, Form::Out(_)),
        }
    }
}

/// Collects the lines of a block, which begins with the line of this number, up to its `end` or to
/// the first line that may not stand in it.
fn collect<'a>(
    lines: &mut Vec<LineEntry<'a>>,
    text: &'a [u8],
    number: usize,
) -> Result<(Seen, Stop<'a>), OutOfMemory>
    requires { number + length text.now < 2 ^ 32 }
    ensures stops { IfOk result (λ r. StopsAt number (forms_of text.now) lines.new.items r.1) }
    ensures ends_by { IfOk result (λ r. EndsBy (number + length text.now) r.1) }
    ensures past { IfOk result (λ r. IsPast number r.1) }
    ensures statement { IfOk result (λ r. r.0.statement ≡ has_statement (forms_in lines.new.items)) }
    ensures out { IfOk result (λ r. r.0.out ≡ has_out (forms_in lines.new.items)) }
    ensures few { IfOk result (λ _. length lines.new.items ≤ length text.now) }
{
    lines.clear();
    let mut seen = Seen::NOTHING;
    let mut rest = text;
    let mut line = number;
    while !rest.is_empty() {
        let (this, after) = next_line(rest);
        match form_of(this) {
            None => {}
            Some(form) => match form {
                Form::End => return Ok((seen, Stop::End(line, after))),
                _ => {
                    if !seen.allows(form) {
                        return Ok((seen, Stop::Unfit(line, after)));
                    }
                    lines.push(LineEntry { line, form })?;
                    seen = seen.with(form);
                }
            },
        }
        rest = after;
        line += 1;
    }
    Ok((seen, Stop::Open(line)))
}

/// Collects the other lines that stand in the block, after one that does not. Their line numbers are
/// not needed.
fn collect_rest<'a>(
    lines: &mut Vec<LineEntry<'a>>,
    mut seen: Seen,
    text: &'a [u8],
) -> Result<(), OutOfMemory>
    requires statement { seen.statement ≡ has_statement (forms_in lines.old.items) }
    requires out { seen.out ≡ has_out (forms_in lines.old.items) }
    ensures whole { OnOk result (forms_in lines.new.items ≡ whole (forms_in lines.old.items) (forms_of text.now)) }
    ensures more { OnOk result ((more : List LineEntry) × (lines.new.items ≡ lines.old.items ++ more)) }
    ensures few { OnOk result (length lines.new.items ≤ length lines.old.items + length text.now) }
{
    let mut rest = text;
    while !rest.is_empty() {
        let (this, after) = next_line(rest);
        match form_of(this) {
            None => {}
            Some(form) => match form {
                Form::End => return Ok(()),
                _ => {
                    if seen.allows(form) {
                        lines.push(LineEntry { line: 0, form })?;
                        seen = seen.with(form);
                    }
                }
            },
        }
        rest = after;
    }
    Ok(())
}

/// Collects the lines that stand in a block, which begins with the line of this number. The result is
/// how many of them stand before the first line that may not stand there, and where the block stops.
pub(crate) fn collect_block<'a>(
    lines: &mut Vec<LineEntry<'a>>,
    text: &'a [u8],
    number: usize,
) -> Result<(usize, Stop<'a>), OutOfMemory>
    requires { number + length text.now < 2 ^ 32 }
    ensures whole { IfOk result (λ r. forms_in lines.new.items ≡ whole [] (forms_of text.now)) }
    ensures stops { IfOk result (λ r. StopsBlock number (forms_of text.now) lines.new.items r.0 r.1) }
    ensures sound { IfOk result (λ r. r.0 ≤ length lines.new.items) }
    ensures ends_by { IfOk result (λ r. EndsBy (number + length text.now) r.1) }
    ensures past { IfOk result (λ r. IsPast number r.1) }
    ensures few { IfOk result (λ _. length lines.new.items < 2 ^ 33) }
{
    let (seen, stop) = collect(lines, text, number)?;
    let sound = lines.len();
    match stop {
        Stop::Unfit(_, rest) => {
            collect_rest(lines, seen, rest)?;
            Ok((sound, stop))
        }
        Stop::End(_, _) | Stop::Open(_) => Ok((sound, stop)),
    }
}
