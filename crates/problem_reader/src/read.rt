//! Reading a text of scheduling problems.

ghost use Rattle.std.specs.Prelude.{◌≡◌, IfOk, OnOk};
ghost use Rattle.problem_lines.specs.Lines.{line_form};
ghost use Rattle.loop_lines.specs.Columns.{placed_words};
ghost use Rattle.problem_tables.specs.Seen.{tables_seen};
ghost use Rattle.problem_tables.specs.Tables.{with_machine_ended};
ghost use Rattle.problem_reader.specs.inner.Reading.{text_fault, with_text, AnswersEnd, RefusesText};
ghost use Rattle.problem_reader.specs.Files.{file_in_text, AnswersText, IsFile};

use crate::file::ProblemFile;
use loop_lines::next_line;
use problem_faults::refused_problems::{TextFault, Wrong};
use problem_lines::line_of;
use problem_tables::{Refusal, Tables};
use problems::limits::MAX_PROBLEM_TEXT;
use std::alloc::Global;

/// What is told where memory runs out.
const OUT_OF_MEMORY: TextFault = TextFault {
    line: 0,
    column: 0,
    width: 0,
    what: Wrong::Memory,
};

/// Takes a line of this number in.
fn take_text<'a>(tables: &mut Tables<'a>, line: usize, text: &'a [u8]) -> Result<(), TextFault>
    ensures fault { RefusesText result (text_fault (tables_seen tables.old) line (line_form (placed_words text.now))) }
    ensures taken { OnOk result (tables_seen tables.new ≡ with_text (tables_seen tables.old) (line_form (placed_words text.now))) }
{
    match line_of(text) {
        Ok(None) => Ok(()),
        Ok(Some(form)) => match tables.take_line(form) {
            Ok(()) => Ok(()),
            Err(Refusal::Fault(told)) => Err(TextFault {
                line,
                column: told.column,
                width: told.width,
                what: told.what,
            }),
            Err(Refusal::Memory) => Err(OUT_OF_MEMORY),
        },
        Err(fault) => Err(TextFault {
            line,
            column: fault.column,
            width: fault.width,
            what: Wrong::Form(fault.what),
        }),
    }
}

/// The file of a text whose lines have been taken in, all before this one.
fn file_of(tables: Tables<'_>, line: usize) -> Result<ProblemFile, TextFault>
    requires { IsFile (with_machine_ended (tables_seen tables)).ended }
    ensures { AnswersEnd (tables_seen tables.entry) line result }
{
    if tables.is_inside() {
        return Err(TextFault {
            line,
            column: 1,
            width: 0,
            what: Wrong::NoEnd,
        });
    }
    match tables.finish() {
        Ok(ended) => Ok(ProblemFile::of(ended)),
        Err(_) => Err(OUT_OF_MEMORY),
    }
}

/// Reads a text of scheduling problems of at most 16,777,216 bytes and 4,096 problems.
///
/// # Errors
/// The first line at fault with its first fault; or memory ran out, which says nothing of the text.
pub fn read_problems(alloc: Global, text: &[u8]) -> Result<ProblemFile, TextFault>
    ensures exact { AnswersText result (file_in_text text.now) }
    ensures well_formed { IfOk result IsFile }
{
    if text.len() > MAX_PROBLEM_TEXT {
        return Err(TextFault {
            line: 0,
            column: 0,
            width: 0,
            what: Wrong::TextSize,
        });
    }
    let mut tables = Tables::new(alloc);
    let mut rest = text;
    let mut line = 1;
    while !rest.is_empty() {
        let (this, after) = next_line(rest);
        if let Err(fault) = take_text(&mut tables, line, this) {
            return Err(fault);
        }
        rest = after;
        line += 1;
    }
    file_of(tables, line)
}
