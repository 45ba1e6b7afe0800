//! The faults of a line, told at the words that they are about.

ghost use Rattle.std.specs.Prelude.{◌≡◌, ◌+◌, ◌<◌, ◌^◌, ◌++◌, [], ◌∷◌, List, length, OnOk};
ghost use Rattle.loop_lines.specs.Forms as spec;
ghost use Rattle.loop_lines.specs.Words.{words_of};
ghost use Rattle.reader_faults.specs.declared.loops.LoopFaultKind.TheVariants.{MissingInit, UnknownName};
ghost use Rattle.loop_lint.specs.Hints.{hint_of, no_hint};
ghost use Rattle.loop_lint.specs.Lints.{fault_at};
ghost use Rattle.loop_lines.specs.Columns.{placed_words};
ghost use Rattle.loop_lint.specs.Words.{spot_at};
ghost use Rattle.loop_lint.specs.inner.Founds.{told_all, told_if};
ghost use Rattle.loop_lint.specs.inner.Tables.{IsTable};

use crate::block::Table;
use crate::fault::{Hint, LintFault};
use crate::hints::{missing_inits, near_name};
use crate::scan::word_at;
use crate::spots::spot_at;
use loop_reader::LoopFaultKind;
use machine_data::OutOfMemory;
use std::alloc::Global;

/// For each kind of faults of a standing line the number of the word, from 0, that the fault is about, where the line has it.
#[derive(Clone, Copy)]
pub(crate) struct Found {
    pub(crate) limit: Option<usize>,
    pub(crate) repeated: Option<usize>,
    pub(crate) unknown: Option<usize>,
    pub(crate) early: Option<usize>,
    pub(crate) missing: Option<usize>,
}

impl Found {
    /// No fault.
    pub(crate) const NOTHING: Found = Found {
        limit: None,
        repeated: None,
        unknown: None,
        early: None,
        missing: None,
    };
}

/// A line of a text, and its number from 1.
#[derive(Clone, Copy)]
pub(crate) struct Line<'a> {
    pub(crate) number: usize,
    pub(crate) bytes: &'a [u8],
}

/// Tells a fault of a line at the word with this number.
fn tell_at(
    faults: &mut Vec<LintFault>,
    line: Line<'_>,
    kind: LoopFaultKind,
    word: usize,
    hint: Hint,
) -> Result<(), OutOfMemory>
    ensures { OnOk result (faults.new.items ≡ faults.old.items ++ fault_at line.entry.number kind (spot_at (placed_words line.entry.bytes.now) word) hint ∷ []) }
{
    let spot = spot_at(line.bytes, word);
    faults.push(LintFault::at(line.number, kind, spot, hint))?;
    Ok(())
}

/// Tells a fault of a line at the word with this number, if it has it, with nothing that helps to mend it.
pub(crate) fn tell(
    faults: &mut Vec<LintFault>,
    line: Line<'_>,
    kind: LoopFaultKind,
    word: Option<usize>,
) -> Result<(), OutOfMemory>
    ensures { OnOk result (faults.new.items ≡ faults.old.items ++ told_if line.entry.number (placed_words line.entry.bytes.now) no_hint kind word) }
{
    match word {
        Some(word) => tell_at(faults, line, kind, word, Hint::Nothing),
        None => Ok(()),
    }
}

/// Tells an unknown name at the word with this number, if there is one, with the nearest name.
fn tell_unknown(
    alloc: Global,
    faults: &mut Vec<LintFault>,
    line: Line<'_>,
    block: &Table<'_>,
    word: Option<usize>,
) -> Result<(), OutOfMemory>
    ensures { OnOk result ((forms : List spec.Form) → IsTable forms block.now
        → faults.new.items ≡ faults.old.items ++ told_if line.entry.number (placed_words line.entry.bytes.now) (hint_of forms (words_of line.entry.bytes.now)) UnknownName word) }
{
    let Some(word) = word else {
        return Ok(());
    };
    let hint = near_name(alloc, block, line.bytes, word_at(line.bytes, word))?;
    tell_at(faults, line, LoopFaultKind::UnknownName, word, hint)?;
    Ok(())
}

/// Tells missing initial values at the word with this number, if there are some, with their numbers.
fn tell_missing(
    alloc: Global,
    faults: &mut Vec<LintFault>,
    line: Line<'_>,
    block: &Table<'_>,
    word: Option<usize>,
) -> Result<(), OutOfMemory>
    ensures { OnOk result ((forms : List spec.Form) → IsTable forms block.now
        → faults.new.items ≡ faults.old.items ++ told_if line.entry.number (placed_words line.entry.bytes.now) (hint_of forms (words_of line.entry.bytes.now)) MissingInit word) }
{
    let Some(word) = word else {
        return Ok(());
    };
    let hint = missing_inits(alloc, block, word_at(line.bytes, word))?;
    tell_at(faults, line, LoopFaultKind::MissingInit, word, hint)?;
    Ok(())
}

/// Tells the faults of a line of a block.
pub(crate) fn tell_all(
    alloc: Global,
    faults: &mut Vec<LintFault>,
    line: Line<'_>,
    block: &Table<'_>,
    found: Found,
) -> Result<(), OutOfMemory>
    ensures { OnOk result ((forms : List spec.Form) → IsTable forms block.now
        → faults.new.items ≡ faults.old.items ++ told_all line.entry.number (placed_words line.entry.bytes.now) (hint_of forms (words_of line.entry.bytes.now)) found) }
{
    tell(faults, line, LoopFaultKind::Limit, found.limit)?;
    tell(faults, line, LoopFaultKind::RepeatedName, found.repeated)?;
    tell_unknown(alloc, faults, line, block, found.unknown)?;
    tell(
        faults,
        line,
        LoopFaultKind::UseBeforeDefinition,
        found.early,
    )?;
    tell_missing(alloc, faults, line, block, found.missing)?;
    Ok(())
}
