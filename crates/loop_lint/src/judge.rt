//! The faults of a standing line, by what the lines before it and those of its block say of names.

ghost use Rattle.std.specs.Prelude.{◌≡◌, ◌||◌, ◌<◌, ◌≤◌, ℕ, List, Some, None, if◌then◌else◌, is_none, length, nat_le, nat_lt, unwrap_or, drop};
ghost use Rattle.std.specs.List.{AllByRecursion, list_any};
ghost use Rattle.loop_lines.specs.Cells.{cells_seen};
ghost use Rattle.loop_lines.specs.Forms as spec;
ghost use Rattle.loop_lines.specs.Forms.{int_of};
ghost use Rattle.loop_lines.specs.Parsed.{form_seen, statement_seen, uses_seen};
ghost use Rattle.loop_lines.specs.Words.{words_of};
ghost use Rattle.loop_lines.specs.Near.{IsNear, IsNearForm, IsNearUse};
ghost use Rattle.loop_reader.specs.Meaning as meaning;
ghost use Rattle.loop_reader.specs.Meaning.{is_long};
ghost use Rattle.loop_lint.specs.Parts.{cell_parts, first_part, is_over, is_wide_int, parts_of, place_word};
ghost use Rattle.loop_lint.specs.inner.Founds.{AreFound};
ghost use Rattle.loop_lint.specs.inner.Tables.{IsTable};

use crate::block::{Table, place_of};
use crate::scan::next_word;
use crate::tell::Found;
use crate::uses::{judge_name, judge_place, judge_uses, word_if};
use loop_lines::{CellWords, Form, StatementWords, are_wide, int_of};
use loop_reader::{is_long, is_value};
use machine_data::Opcode;
use machine_data::limits::{MAX_ARRAYS, MAX_CELLS, MAX_PARAMETERS, MAX_STATEMENTS};

/// What is left of a line after one word.
fn after_word(line: &[u8]) -> &[u8]
    ensures words { words_of result.now ≡ drop 1 (words_of line.now) }
    ensures shorter { length result.now ≤ length line.now }
{
    match next_word(line) {
        None => line,
        Some((_, rest)) => rest,
    }
}

/// An integer that does not fit 64 bits.
fn is_wide_int(word: &[u8]) -> bool
    ensures { result ≡ is_wide_int (int_of word.now) }
{
    matches!(int_of(word), Some(None))
}

/// The word of the first cell of an array line that does not fit 64 bits, or of the first one too many.
#[tactic(auto, using(crate::proofs::Passed::cell_wide, crate::proofs::Passed::cell_next, crate::proofs::Passed::cell_none))]
fn first_wide_cell(line: &[u8]) -> Option<usize>
    ensures { result ≡ first_part is_over (cell_parts 0 (drop 3 (words_of line.now))) }
{
    let mut number = 0;
    let mut left = after_word(after_word(after_word(line)));
    while let Some((word, after)) = next_word(left) {
        if is_wide_int(word) || number >= MAX_CELLS {
            return Some(number + 3);
        }
        number += 1;
        left = after;
    }
    None
}

/// The word of the limit fault of an array line, if it has it.
fn array_over(line: &[u8], name: &[u8], cells: CellWords<'_>, arrays: usize) -> Option<usize>
    ensures { result ≡ (if is_long name.now || list_any is_none (cells_seen cells.entry) || nat_lt 1024 (length (cells_seen cells.entry)) || nat_le 32 arrays
        then Some (unwrap_or (first_part is_over (parts_of (words_of line.now) (spec.ArrayLine name.now (cells_seen cells.entry)))) 0) else None) }
{
    if is_long(name) {
        return Some(1);
    }
    if are_wide(cells) || arrays >= MAX_ARRAYS {
        return Some(first_wide_cell(line).unwrap_or(0));
    }
    None
}

#[tactic(auto, using(crate::proofs::Judging::found_array))]
fn judge_array(before: &Table<'_>, line: &[u8], name: &[u8], cells: CellWords<'_>) -> Found
    ensures { (lines block : List spec.Form) → IsTable lines before.now → AreFound lines block (words_of line.now) (spec.ArrayLine name.now (cells_seen cells.entry)) result }
{
    Found {
        limit: array_over(line, name, cells, before.arrays),
        repeated: word_if(before.get(name).declared.is_some(), 1),
        ..Found::NOTHING
    }
}

fn judge_param(before: &Table<'_>, name: &[u8], value: Option<i64>) -> Found
    ensures { (lines block : List spec.Form) (words : List (List ℕ)) → IsTable lines before.now → AreFound lines block words (spec.ParamLine name.now value) result }
{
    let limit = word_if(is_long(name), 1)
        .or(word_if(value.is_none(), 3))
        .or(word_if(before.params >= MAX_PARAMETERS, 0));
    Found {
        limit,
        repeated: word_if(before.get(name).declared.is_some(), 1),
        ..Found::NOTHING
    }
}

/// The number of an initial value is 0, or too great.
fn is_outside(number: Option<u8>) -> bool
    ensures { result ≡ meaning.is_outside number }
{
    matches!(number, None | Some(0))
}

#[tactic(auto, using(crate::proofs::Judging::found_init))]
fn judge_init(
    before: &Table<'_>,
    block: &Table<'_>,
    name: &[u8],
    number: Option<u8>,
    value: Option<i64>,
) -> Found
    requires { IsNear number }
    ensures { (lines forms : List spec.Form) (words : List (List ℕ)) → IsTable lines before.now → IsTable forms block.now → AreFound lines forms words (spec.InitLine name.now number value) result }
{
    let outside = word_if(is_outside(number), 1).or(word_if(value.is_none(), 3));
    Found {
        limit: word_if(is_long(name), 1).or(outside),
        repeated: word_if(before.get(name).inits[place_of(number)], 1),
        unknown: word_if(!is_value(block.get(name).declared), 1),
        ..Found::NOTHING
    }
}

/// The word of a statement's place.
fn place_word(opcode: Opcode) -> usize
    ensures { result ≡ place_word opcode }
{
    match opcode {
        Opcode::Store => 1,
        _ => 3,
    }
}

fn judge_statement(before: &Table<'_>, block: &Table<'_>, source: &StatementWords<'_>) -> Found
    requires { AllByRecursion IsNearUse (uses_seen source.now.uses) }
    ensures { (lines forms : List spec.Form) (words : List (List ℕ)) → IsTable lines before.now → IsTable forms block.now
        → AreFound lines forms words (spec.StatementLine (statement_seen source.now)) result }
{
    let name = judge_name(before, source.name);
    let place = judge_place(block, &source.place, place_word(source.opcode));
    let uses = judge_uses(block, before.statements, source.opcode, &source.uses);
    let many = word_if(before.statements >= MAX_STATEMENTS, 0);
    let limit = name.over.or(place.over.or(uses.over));
    Found {
        limit: limit.or(many),
        repeated: name.repeated,
        unknown: place.unknown.or(uses.unknown),
        early: uses.early,
        missing: uses.uncovered,
    }
}

#[tactic(auto, using(crate::proofs::Judging::found_out))]
fn judge_out(before: &Table<'_>, block: &Table<'_>, name: &[u8]) -> Found
    ensures { (lines forms : List spec.Form) (words : List (List ℕ)) → IsTable lines before.now → IsTable forms block.now → AreFound lines forms words (spec.OutLine name.now) result }
{
    let known = block.get(name);
    Found {
        limit: word_if(is_long(name), 1),
        repeated: word_if(before.get(name).out, 1),
        unknown: word_if(!is_value(known.declared), 1),
        early: None,
        missing: word_if(!known.inits[1], 1),
    }
}

/// The faults of a standing line.
#[tactic(auto, using(crate::proofs::Judging::found_end))]
pub(crate) fn judge(before: &Table<'_>, block: &Table<'_>, line: &[u8], form: &Form<'_>) -> Found
    requires { IsNearForm (form_seen form.now) }
    ensures { (lines forms : List spec.Form) → IsTable lines before.now → IsTable forms block.now → AreFound lines forms (words_of line.now) (form_seen form.now) result }
{
    match form {
        Form::Array(name, cells) => judge_array(before, line, *name, *cells),
        Form::Param(name, value) => judge_param(before, *name, *value),
        Form::Init(name, number, value) => judge_init(before, block, *name, *number, *value),
        Form::Statement(source) => judge_statement(before, block, source),
        Form::Out(name) => judge_out(before, block, *name),
        Form::End => Found {
            limit: word_if(!before.statement, 0),
            ..Found::NOTHING
        },
        Form::Loop(_) | Form::Malformed => Found::NOTHING,
    }
}
