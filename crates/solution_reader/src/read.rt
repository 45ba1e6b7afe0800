//! Reading a text of solutions.

ghost use Rattle.std.specs.Prelude.{◌≡◌, ◌≤◌, List, [], Option, Some, Result, Ok, length};
ghost use Rattle.problem_lines.specs.SolutionLines.{SolutionLineForm, solution_line_form};
ghost use Rattle.problem_lines.specs.SolutionParsed.{solution_line_seen};
ghost use Rattle.loop_lines.specs.Columns.{placed_words};
ghost use Rattle.problem_lines.specs.declared.fault.LineFault.{LineFault};
ghost use Rattle.problems.specs.declared.limits.TheConstants.{MAX_PROBLEM_TEXT};
ghost use Rattle.solution_reader.specs.Meaning.{forms_of, lines_from, solutions_in_text, solutions_or, AnswersText};
ghost use Rattle.solution_reader.specs.Sofar.{TextLine};
ghost use Rattle.solution_reader.specs.inner.Reading.{AnswersLine, AnswersLines, GoesOn};
ghost use Rattle.solution_reader.specs.inner.Taken.{sofar_seen};
ghost use Rattle.solution_reader.specs.inner.Steps.{IsSofar, nothing};

use crate::fault::{Refusal, at_line};
use crate::file::SolutionFile;
use crate::sofar::Sofar;
use loop_lines::next_line;
use problem_faults::refused_solutions::{SolutionFault, Wrong};
use problem_lines::{SolutionLine, solution_line_of};
use problems::limits::MAX_PROBLEM_TEXT;
use std::alloc::Global;

/// A fault of no line.
fn whole_fault(what: Wrong) -> SolutionFault
    ensures { result ≡ record { line = 0; column = 0; width = 0; what = what } }
{
    SolutionFault {
        line: 0,
        column: 0,
        width: 0,
        what,
    }
}

/// The lines of a text, taken in one by one.
fn take_lines<'a>(
    alloc: Global,
    sofar: &mut Sofar<'a>,
    text: &'a [u8],
) -> Result<usize, SolutionFault>
    requires { length text.now ≤ MAX_PROBLEM_TEXT }
    ensures { (before : List TextLine) → IsSofar before (sofar_seen sofar.old) → AnswersLines before (forms_of text.now) (sofar_seen sofar.new) result }
{
    let mut rest = text;
    let mut number = 1;
    while !rest.is_empty() {
        let (this, after) = next_line(rest);
        if let Err(fault) = take(alloc, sofar, number, this) {
            return Err(fault);
        }
        rest = after;
        number += 1;
    }
    Ok(number)
}

/// Takes in a line.
fn take<'a>(
    alloc: Global,
    sofar: &mut Sofar<'a>,
    number: usize,
    line: &'a [u8],
) -> Result<(), SolutionFault>
    ensures { (before : List TextLine) (rest : List (Result (Option SolutionLineForm) LineFault)) → IsSofar before (sofar_seen sofar.old)
        → AnswersLine number before (solution_line_form (placed_words line.now)) (sofar_seen sofar.new) result rest }
{
    match solution_line_of(line) {
        Err(fault) => Err(SolutionFault {
            line: number,
            column: fault.column,
            width: fault.width,
            what: Wrong::Form(fault.what),
        }),
        Ok(None) => Ok(()),
        Ok(Some(said)) => take_said(alloc, sofar, number, said),
    }
}

/// Takes in what a line says.
fn take_said<'a>(
    alloc: Global,
    sofar: &mut Sofar<'a>,
    number: usize,
    said: SolutionLine<'a>,
) -> Result<(), SolutionFault>
    ensures { (before : List TextLine) (rest : List (Result (Option SolutionLineForm) LineFault)) → IsSofar before (sofar_seen sofar.old)
        → AnswersLine number before (Ok (Some (solution_line_seen said.entry))) (sofar_seen sofar.new) result rest }
{
    match sofar.take_line(alloc, number, said) {
        Ok(()) => Ok(()),
        Err(Refusal::Memory) => Err(whole_fault(Wrong::Memory)),
        Err(Refusal::Fault(told)) => Err(at_line(number, told)),
    }
}

/// The solutions of a text whose last line has the number before this one.
fn finish<'a>(
    alloc: Global,
    sofar: &mut Sofar<'a>,
    number: usize,
) -> Result<SolutionFile<'a>, SolutionFault>
    ensures { (forms : List (Result (Option SolutionLineForm) LineFault)) → GoesOn 1 [] forms number (sofar_seen sofar.old) []
        → AnswersText result (solutions_or (lines_from 1 [] forms)) }
{
    if sofar.is_inside() {
        return Err(SolutionFault {
            line: number,
            column: 1,
            width: 0,
            what: Wrong::NoEnd,
        });
    }
    Ok(sofar.finish(alloc))
}

/// The solutions of a text, before whose first line nothing has been said.
fn read_all<'a>(
    alloc: Global,
    sofar: &mut Sofar<'a>,
    text: &'a [u8],
) -> Result<SolutionFile<'a>, SolutionFault>
    requires size { length text.now ≤ MAX_PROBLEM_TEXT }
    requires start { sofar_seen sofar.old ≡ nothing }
    ensures { AnswersText result (solutions_or (lines_from 1 [] (forms_of text.now))) }
{
    match take_lines(alloc, sofar, text) {
        Ok(number) => finish(alloc, sofar, number),
        Err(fault) => Err(fault),
    }
}

/// Reads a text of solutions of at most 16,777,216 bytes. Times, alternatives and numbers are taken as they are told:
/// whether they fit a problem is not asked.
///
/// # Errors
/// The first line at fault with its first fault; or memory ran out, which says nothing of the text.
pub fn read_solutions(alloc: Global, text: &[u8]) -> Result<SolutionFile<'_>, SolutionFault>
    ensures exact { AnswersText result (solutions_in_text text.now) }
{
    if text.len() > MAX_PROBLEM_TEXT {
        return Err(whole_fault(Wrong::TextSize));
    }
    let mut sofar = Sofar::new(alloc);
    let file = read_all(alloc, &mut sofar, text);
    drop(sofar);
    file
}
