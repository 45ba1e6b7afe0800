//! Lines of the faults of a loop text.

ghost use Rattle.std.specs.Prelude.{◌≡◌, ◌≤◌, ◌++◌, [], drop, slice_index_or, OnOk};
ghost use Rattle.loop_lines.specs.Words.{lines_of};
ghost use Rattle.writing.specs.Words.{ended};
ghost use Rattle.lint_text.specs.What.{message_of};
ghost use Rattle.lint_text.specs.Lines.{lint_line, loop_text};
ghost use Rattle.lint_text.specs.Words.{line_at};
ghost use Rattle.lint_text.specs.inner.Cursors.{IsFrom};

use crate::places::push_place;
use crate::what::loop_message;
use crate::words::{piece_at, push_word};
use loop_lines::next_line;
use loop_lint::LoopLint;
use machine_data::OutOfMemory;
use std::alloc::Global;
use writing::push_line;

/// The rest of a text from a line on, and how many lines stand before it.
#[derive(Clone, Copy)]
pub(crate) struct From<'a> {
    pub(crate) passed: usize,
    pub(crate) rest: &'a [u8],
}

/// What is left of a text after some lines, or nothing where it has fewer. Lines that are passed already are not passed
/// again.
pub(crate) fn passing<'a>(text: &'a [u8], from: From<'a>, lines: usize) -> From<'a>
    requires { IsFrom text.now from }
    ensures from { IsFrom text.now result }
    ensures line { slice_index_or (lines_of result.rest.now) 0 [] ≡ slice_index_or (lines_of text.now) lines [] }
{
    let mut at = if lines < from.passed {
        From {
            passed: 0,
            rest: text,
        }
    } else {
        from
    };
    while at.passed < lines && !at.rest.is_empty() {
        let (_, rest) = next_line(at.rest);
        at = From {
            passed: at.passed + 1,
            rest,
        };
    }
    at
}

/// The first line of a text, or nothing where the text is empty.
pub(crate) fn first_line(text: &[u8]) -> &[u8]
    ensures { result.now ≡ slice_index_or (lines_of text.now) 0 [] }
{
    if text.is_empty() {
        return &[];
    }
    let (line, _) = next_line(text);
    line
}

/// Pushes what is said of a line at a word of it, as the end of a line.
fn push_message(
    alloc: Global,
    text: &mut Vec<u8>,
    line: &[u8],
    word: &[u8],
    lint: &LoopLint,
) -> Result<(), OutOfMemory>
    ensures { OnOk result (text.new.items ≡ text.old.items ++ ended (message_of line.now word.now lint.now)) }
{
    let message = loop_message(alloc, lint, line, word)?;
    push_line(text, message.as_str())
}

/// Pushes a line for what is told of this line of a loop text.
fn push_loop_fault(
    alloc: Global,
    text: &mut Vec<u8>,
    path: &str,
    line: &[u8],
    lint: &LoopLint,
) -> Result<(), OutOfMemory>
    ensures { OnOk result (text.new.items ≡ text.old.items ++ lint_line path.now line.now lint.now) }
{
    let word = piece_at(line, lint.column(), lint.width());
    push_place(text, path, lint.line(), lint.column())?;
    push_word(text, word)?;
    push_message(alloc, text, line, word, lint)
}

/// Pushes a line for all that is told of the loop text that has this path and these bytes.
///
/// # Errors
/// Memory ran out. The text has some of the lines after it, and maybe the beginning of one.
pub fn push_loop_faults(
    alloc: Global,
    text: &mut Vec<u8>,
    path: &str,
    bytes: &[u8],
    lints: &[LoopLint],
) -> Result<(), OutOfMemory>
    ensures { OnOk result (text.new.items ≡ text.old.items ++ loop_text path.now bytes.now lints.now) }
{
    let mut from = From {
        passed: 0,
        rest: bytes,
    };
    for lint in lints {
        from = passing(bytes, from, lint.line().saturating_sub(1));
        push_loop_fault(alloc, text, path, first_line(from.rest), lint)?;
    }
    Ok(())
}
