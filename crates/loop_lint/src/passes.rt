//! The two passes over a block: the first sees what its lines say of names, the second judges them.

ghost use Rattle.std.specs.Prelude.{◌≡◌, ◌+◌, ◌<◌, ◌≤◌, ◌^◌, ◌++◌, [], ℕ, List, IfOk, OnOk, length};
ghost use Rattle.loop_lines.specs.Forms as spec;
ghost use Rattle.loop_lines.specs.Parsed.{form_seen};
ghost use Rattle.loop_lines.specs.Words.{words_of};
ghost use Rattle.loop_reader.specs.Meaning.{forms_of, whole};
ghost use Rattle.loop_lint.specs.Lints.{inside_lints, outside_lints, text_lines};
ghost use Rattle.loop_lint.specs.Parts.{syntax_word};
ghost use Rattle.loop_lint.specs.inner.Passes.{is_end, Gathers, Tells};
ghost use Rattle.loop_lint.specs.inner.Tables.{IsTable};

use crate::block::Table;
use crate::fault::LintFault;
use crate::judge::judge;
use crate::misfit::misfit;
use crate::tell::{Line, tell, tell_all};
use loop_lines::{Form, form_of, next_line};
use loop_reader::LoopFaultKind;
use machine_data::OutOfMemory;
use std::alloc::Global;

/// The word at which a line that may not stand where it stands is told so.
pub(crate) fn syntax_word(line: &[u8], form: &Form<'_>) -> usize
    ensures { result ≡ syntax_word (words_of line.now) (form_seen form.now) }
{
    match form {
        Form::Malformed => misfit(line),
        _ => 0,
    }
}

fn is_end(form: &Form<'_>) -> bool
    ensures { result ≡ is_end (form_seen form.now) }
{
    matches!(form, Form::End)
}

/// Takes in what a line of a block says. The result is whether it ends the block.
#[tactic(auto, using(crate::proofs::Passing::gathers_none, crate::proofs::Passing::gathers_last, crate::proofs::Passing::gathers_no))]
fn gather_line<'a>(table: &mut Table<'a>, line: &'a [u8]) -> Result<bool, OutOfMemory>
    requires room { table.old.arrays + table.old.params + table.old.statements + 1 < 2 ^ 64 }
    ensures table { IfOk result (λ end. (before : List spec.Form) → IsTable before table.old → Gathers before line.now table.new end) }
    ensures count { IfOk result (λ end. table.new.arrays + table.new.params + table.new.statements ≤ table.old.arrays + table.old.params + table.old.statements + 1) }
{
    let Some(form) = form_of(line) else {
        return Ok(false);
    };
    if is_end(&form) {
        return Ok(true);
    }
    if !table.allows(&form) {
        return Ok(false);
    }
    table.add(&form)?;
    Ok(false)
}

/// Takes in what the standing lines of the block say that a text goes on with.
#[tactic(auto, using(crate::proofs::Passing::gathered_first, crate::proofs::Passing::gathered_next, crate::proofs::Passing::gathered_end, crate::proofs::Passing::gathered_all))]
fn gather_lines<'a>(table: &mut Table<'a>, text: &'a [u8]) -> Result<(), OutOfMemory>
    requires none { IsTable [] table.old }
    ensures { OnOk result (IsTable (whole [] (forms_of text.now)) table.new) }
{
    let mut rest = text;
    while !rest.is_empty() {
        let (line, after) = next_line(rest);
        if gather_line(table, line)? {
            return Ok(());
        }
        rest = after;
    }
    Ok(())
}

/// What the standing lines of the block say that a text goes on with.
fn gather(alloc: Global, text: &[u8]) -> Result<Table<'_>, OutOfMemory>
    ensures { IfOk result (λ table. IsTable (whole [] (forms_of text.now)) table) }
{
    let mut table = Table::new(alloc);
    gather_lines(&mut table, text)?;
    Ok(table)
}

/// Tells the faults of a line of a block, after the lines before it. The result is whether it ends the block.
fn tell_line<'a>(
    alloc: Global,
    faults: &mut Vec<LintFault>,
    before: &mut Table<'a>,
    block: &Table<'_>,
    line: Line<'a>,
) -> Result<bool, OutOfMemory>
    requires room { before.old.arrays + before.old.params + before.old.statements + 1 < 2 ^ 64 }
    ensures told { IfOk result (λ end. (lines forms : List spec.Form) → IsTable lines before.old → IsTable forms block.now
        → Tells line.entry.number lines line.entry.bytes.now before.new faults.old.items faults.new.items forms end) }
    ensures count { IfOk result (λ end. before.new.arrays + before.new.params + before.new.statements ≤ before.old.arrays + before.old.params + before.old.statements + 1) }
{
    let Some(form) = form_of(line.bytes) else {
        return Ok(false);
    };
    if !before.allows(&form) {
        let word = syntax_word(line.bytes, &form);
        tell(faults, line, LoopFaultKind::Syntax, Some(word))?;
        return Ok(false);
    }
    let found = judge(before, block, line.bytes, &form);
    tell_all(alloc, faults, line, block, found)?;
    before.add(&form)?;
    Ok(is_end(&form))
}

/// Tells the faults of lines of a block, up to its end. None is before the first, whose number this is.
fn tell_lines<'a>(
    alloc: Global,
    faults: &mut Vec<LintFault>,
    before: &mut Table<'a>,
    block: &Table<'_>,
    text: &'a [u8],
    number: usize,
) -> Result<(usize, &'a [u8]), OutOfMemory>
    requires few { number + length text.now < 2 ^ 32 }
    requires before { IsTable [] before.old }
    requires block { IsTable (whole [] (forms_of text.now)) block.now }
    ensures told { IfOk result (λ r. (names : List (List ℕ)) → faults.old.items ++ inside_lints number names [] (text_lines text.now)
        ≡ faults.new.items ++ outside_lints r.0 names (text_lines r.1.now)) }
    ensures room { IfOk result (λ r. r.0 + length r.1.now ≤ number + length text.now) }
    ensures shorter { IfOk result (λ r. length r.1.now ≤ length text.now) }
    ensures past { IfOk result (λ r. number ≤ r.0) }
{
    let mut rest = text;
    let mut at = number;
    while !rest.is_empty() {
        let (bytes, after) = next_line(rest);
        let line = Line { number: at, bytes };
        let ends = tell_line(alloc, faults, before, block, line)?;
        rest = after;
        at += 1;
        if ends {
            return Ok((at, rest));
        }
    }
    faults.push(LintFault::no_end(at))?;
    Ok((at, rest))
}

/// Tells the faults of the block that a text goes on with, whose lines have numbers from this one on. The result is the
/// number of the line after it, and the text from there on.
pub(crate) fn tell_block<'a>(
    alloc: Global,
    faults: &mut Vec<LintFault>,
    text: &'a [u8],
    number: usize,
) -> Result<(usize, &'a [u8]), OutOfMemory>
    requires { number + length text.now < 2 ^ 32 }
    ensures told { IfOk result (λ r. (names : List (List ℕ)) → faults.old.items ++ inside_lints number names [] (text_lines text.now)
        ≡ faults.new.items ++ outside_lints r.0 names (text_lines r.1.now)) }
    ensures room { IfOk result (λ r. r.0 + length r.1.now ≤ number + length text.now) }
    ensures shorter { IfOk result (λ r. length r.1.now ≤ length text.now) }
    ensures past { IfOk result (λ r. number ≤ r.0) }
{
    let block = gather(alloc, text)?;
    let mut before = Table::new(alloc);
    tell_lines(alloc, faults, &mut before, &block, text, number)
}
