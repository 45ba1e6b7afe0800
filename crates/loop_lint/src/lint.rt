//! All faults of a loop text.

ghost use Rattle.std.specs.Prelude.{◌≡◌, ◌+◌, ◌||◌, ◌<◌, ◌≤◌, ◌^◌, ◌++◌, [], ℕ, List, IfOk, OnOk, length, map};
ghost use Rattle.machine_data.specs.Opcodes.{same_word};
ghost use Rattle.loop_reader.specs.Meaning.{loops_in, opening_faults};
ghost use Rattle.loop_lint.specs.Hints.{no_hint};
ghost use Rattle.loop_lint.specs.Lints.{AreFaults, BeginsAs, outside_lints, plain, text_lines, told};
ghost use Rattle.loop_lint.specs.Parts.{word_of_opening};
ghost use Rattle.loop_lines.specs.Columns.{placed_words};
ghost use Rattle.loop_lint.specs.inner.Names.{is_among, AreNames, GoesOn};

use crate::fault::LintFault;
use crate::passes::{syntax_word, tell_block};
use crate::tell::{Line, tell};
use crate::uses::word_if;
use loop_lines::{Form, form_of, next_line};
use loop_reader::{LoopFaultKind, is_long};
use machine_data::OutOfMemory;
use machine_data::limits::{MAX_LOOPS, MAX_TEXT};
use std::alloc::Global;
use std::collections::BTreeSet;

/// Adds a name, which may be there already. The result is whether it was.
fn add_name<'a>(names: &mut BTreeSet<&'a [u8]>, name: &'a [u8]) -> Result<bool, OutOfMemory>
    ensures names { OnOk result ((q : List ℕ) → is_among names.new q ≡ (is_among names.old q || same_word q name.now)) }
    ensures there { IfOk result (λ there. there ≡ is_among names.old name.now) }
{
    let added = names.insert(name)?;
    Ok(!added)
}

/// Tells the faults of a line that begins a loop, after `loops` others whose names are `names`.
fn tell_opening<'a>(
    faults: &mut Vec<LintFault>,
    names: &mut BTreeSet<&'a [u8]>,
    loops: usize,
    line: Line<'_>,
    name: &'a [u8],
) -> Result<(), OutOfMemory>
    ensures told { OnOk result ((before : List (List ℕ)) → AreNames before names.old loops
        → faults.new.items ≡ faults.old.items ++ told line.entry.number (placed_words line.entry.bytes.now) no_hint (word_of_opening before name.now) (opening_faults before name.now)) }
    ensures names { OnOk result ((q : List ℕ) → is_among names.new q ≡ (is_among names.old q || same_word q name.now)) }
{
    let limit = word_if(is_long(name), 1).or(word_if(loops >= MAX_LOOPS, 0));
    tell(faults, line, LoopFaultKind::Limit, limit)?;
    let there = add_name(names, name)?;
    tell(faults, line, LoopFaultKind::RepeatedName, word_if(there, 1))
}

/// How far a text has been gone through: the number of the next line, the text from there on, and how many loops have
/// begun.
#[derive(Clone, Copy)]
struct Left<'a> {
    number: usize,
    rest: &'a [u8],
    loops: usize,
}

/// Tells the faults of a line outside of loops, and those of the loop that it begins.
fn tell_outside<'a>(
    alloc: Global,
    faults: &mut Vec<LintFault>,
    names: &mut BTreeSet<&'a [u8]>,
    at: Left<'a>,
) -> Result<Left<'a>, OutOfMemory>
    requires some { 0 < length at.rest.now }
    requires room { at.number + length at.rest.now < 2 ^ 32 }
    requires few { at.loops < at.number }
    ensures told { IfOk result (λ left. (before : List (List ℕ)) → AreNames before names.old at.entry.loops
        → GoesOn names.new left.number left.loops (text_lines left.rest.now) faults.new.items (faults.old.items ++ outside_lints at.entry.number before (text_lines at.entry.rest.now))) }
    ensures shorter { IfOk result (λ left. length left.rest.now < length at.entry.rest.now) }
    ensures room { IfOk result (λ left. left.number + length left.rest.now ≤ at.entry.number + length at.entry.rest.now) }
    ensures few { IfOk result (λ left. left.loops < left.number) }
{
    let (bytes, after) = next_line(at.rest);
    let line = Line {
        number: at.number,
        bytes,
    };
    let next = Left {
        number: at.number + 1,
        rest: after,
        loops: at.loops,
    };
    let Some(form) = form_of(bytes) else {
        return Ok(next);
    };
    let Form::Loop(name) = form else {
        let word = syntax_word(bytes, &form);
        tell(faults, line, LoopFaultKind::Syntax, Some(word))?;
        return Ok(next);
    };
    tell_opening(faults, names, at.loops, line, name)?;
    let (number, rest) = tell_block(alloc, faults, after, next.number)?;
    Ok(Left {
        number,
        rest,
        loops: at.loops + 1,
    })
}

/// Tells the faults of a text, where no loop has begun yet.
fn tell_all_lines<'a>(
    alloc: Global,
    faults: &mut Vec<LintFault>,
    names: &mut BTreeSet<&'a [u8]>,
    text: &'a [u8],
) -> Result<(), OutOfMemory>
    requires short { length text.now ≤ MAX_TEXT }
    requires names { AreNames [] names.old 0 }
    ensures { OnOk result (faults.new.items ≡ faults.old.items ++ outside_lints 1 [] (text_lines text.now)) }
{
    let mut at = Left {
        number: 1,
        rest: text,
        loops: 0,
    };
    while !at.rest.is_empty() {
        at = tell_outside(alloc, faults, names, at)?;
    }
    Ok(())
}

/// Tells the faults of a text.
fn tell_text(alloc: Global, faults: &mut Vec<LintFault>, text: &[u8]) -> Result<(), OutOfMemory>
    requires { length text.now ≤ MAX_TEXT }
    ensures { OnOk result (faults.new.items ≡ faults.old.items ++ outside_lints 1 [] (text_lines text.now)) }
{
    let mut names = BTreeSet::new(alloc);
    tell_all_lines(alloc, faults, &mut names, text)
}

/// Every fault of a loop text, in the order of its lines, and of a line in the order of the formats.
///
/// There are none where [`loop_reader::read_loops`] reads the text, and else the first is the fault that it tells. Of a
/// text of more than 1,048,576 bytes there is one.
///
/// # Errors
/// Memory ran out, which says nothing of the text.
pub fn lint_loops(alloc: Global, text: &[u8]) -> Result<Vec<LintFault>, OutOfMemory>
    ensures exact { IfOk result (λ faults. AreFaults text.now faults.items) }
    ensures first { IfOk result (λ faults. BeginsAs (loops_in text.now) (map plain faults.items)) }
{
    let mut faults = Vec::new(alloc);
    if text.len() > MAX_TEXT {
        faults.push(LintFault::too_long())?;
        return Ok(faults);
    }
    tell_text(alloc, &mut faults, text)?;
    Ok(faults)
}
