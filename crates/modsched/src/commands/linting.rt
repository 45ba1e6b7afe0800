//! What `lint` writes.

ghost use Rattle.std.specs.Prelude.{◌≡◌, IfErr, IfOk, string_bytes};
ghost use Rattle.lint_text.specs.Printout.{IsSilent};
ghost use Rattle.modsched.specs.Engine.{IsLintAs, IsNamed, LintBrings, loops_to_lint, machine_to_lint};
ghost use Rattle.modsched.specs.inner.Answers.{ending_of};
ghost use Rattle.modsched.specs.inner.Refusals.{IsRefusal};

use super::answer::Answer;
use command_line::{Format, LintTexts};
use exit_status::Status;
use lint_text::{LintText, Named, lint_document, lint_printout};
use machine_data::OutOfMemory;
use std::alloc::Global;

/// The faults of the texts that a command was given, or that memory ran out. Of one text alone the first bytes are ignored.
pub(crate) fn lint_text(
    alloc: Global,
    texts: &LintTexts,
    format: Format,
    first: &[u8],
    last: &[u8],
) -> Result<Answer, Status>
    ensures brings { LintBrings format texts.now first.now last.now (ending_of result) }
    ensures kind { IfErr result IsRefusal }
{
    let (machine, loops) = named(texts, first, last);
    match shown(alloc, format, machine, loops) {
        Ok(lint) => Ok(Answer::Lint(lint)),
        Err(_) => Err(Status::OutOfMemory),
    }
}

/// The faults of these texts, as lines or as a document.
fn shown(
    alloc: Global,
    format: Format,
    machine: Option<Named<'_>>,
    loops: Option<Named<'_>>,
) -> Result<LintText, OutOfMemory>
    ensures exact { IfOk result (IsLintAs format machine.entry loops.entry) }
    ensures silent { IfOk result (λ printed. IsSilent machine.entry loops.entry printed) }
{
    match format {
        Format::Text => lint_printout(alloc, machine, loops),
        Format::Json => lint_document(alloc, machine, loops),
    }
}

/// The machine's text and the loops', each with its path, where they are given.
fn named<'a>(
    texts: &'a LintTexts,
    first: &'a [u8],
    last: &'a [u8],
) -> (Option<Named<'a>>, Option<Named<'a>>)
    ensures machine { IsNamed (machine_to_lint texts.entry.now first.entry.now last.entry.now) result.0 }
    ensures loops { IsNamed (loops_to_lint texts.entry.now last.entry.now) result.1 }
{
    match texts {
        LintTexts::Machine { machine } => (Some(at(machine, last)), None),
        LintTexts::Loops { loops } => (None, Some(at(loops, last))),
        LintTexts::Both { machine, loops } => (Some(at(machine, first)), Some(at(loops, last))),
    }
}

/// A text with its path.
fn at<'a>(path: &'a String, text: &'a [u8]) -> Named<'a>
    ensures path { result.path.now ≡ string_bytes path.entry.now }
    ensures text { result.text ≡ text.entry }
{
    Named {
        path: path.as_str(),
        text,
    }
}
