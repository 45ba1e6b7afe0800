//! The alternatives of a `kind` line.

ghost use Rattle.std.specs.Prelude.{◌≡◌, ◌∷◌, [], ◌++◌, ℕ, List, length, map, OnOk};
ghost use Rattle.std.specs.List.{list_any};
ghost use Rattle.smallvec.specs.SmallVec.{SmallVec as Items};
ghost use Rattle.problem_lines.specs.Seen.{hold_seen, word_seen};
ghost use Rattle.problems.specs.declared.draft.Hold.{Hold};
ghost use Rattle.problem_tables.specs.Data.{hold_in, kind_of, kind_seen};
ghost use Rattle.problem_tables.specs.Faults.{alternatives_fault, first_of};
ghost use Rattle.problem_tables.specs.Names.{index_of};
ghost use Rattle.problem_tables.specs.Seen.{Refuses};
ghost use Rattle.problem_tables.specs.inner.Holds.{crowd_fault, hold_fault, rest_fault, same_row};

use crate::fault::{Refusal, Told};
use crate::judging::{known_fault, number_or_0, offset_fault, word_fault, word_room};
use crate::names::Names;
use machine_data::limits::{MAX_OFFSET, MAX_OPERATION_ALTERNATIVES, MAX_ROWS};
use problem_faults::refused_problems::{Part, Wrong};
use problem_lines::{Alternatives, HoldWord, Holds, Number};
use problems::{Hold, Kind};
use smallvec::SmallVec;
use std::alloc::Global;

/// What a hold says.
fn hold_of(units: &Names<'_>, word: HoldWord<'_>) -> Hold
    ensures { result ≡ hold_in units.now (hold_seen word.entry) }
{
    Hold {
        unit: units.index(word.unit.bytes),
        offset: number_or_0(word.offset),
    }
}

/// The fault that an alternative is too many, told at its first hold.
fn crowd_fault(count: usize, sofar: &[Hold], word: HoldWord<'_>) -> Option<Told>
    ensures { result ≡ crowd_fault count sofar.now (hold_seen word.entry) }
{
    match sofar {
        [] => word_room(
            word.unit,
            count,
            MAX_OPERATION_ALTERNATIVES,
            Part::Alternatives,
        ),
        _ => None,
    }
}

/// Whether the two rows are the same.
fn is_same(row: Hold, other: Hold) -> bool
    ensures { result ≡ same_row row other }
{
    row.unit == other.unit && row.offset == other.offset
}

/// Whether a row is among others.
fn is_among(row: Hold, others: &[Hold]) -> bool
    ensures { result ≡ list_any (same_row row) others.now }
{
    others.iter().any(|other| is_same(row, *other))
}

/// The fault of a hold that says this, after the holds of its alternative so far.
fn hold_fault(
    units: &Names<'_>,
    count: usize,
    sofar: &[Hold],
    word: HoldWord<'_>,
    hold: Hold,
) -> Option<Told>
    requires { hold ≡ hold_in units.now (hold_seen word) }
    ensures { result ≡ hold_fault units.now count sofar.now (hold_seen word.entry) }
{
    if let Some(told) = crowd_fault(count, sofar, word) {
        return Some(told);
    }
    if let Some(told) = word_room(word.unit, sofar.len(), MAX_ROWS, Part::Holds) {
        return Some(told);
    }
    if let Some(told) = known_fault(units, hold.unit, Part::Units, word.unit) {
        return Some(told);
    }
    if let Some(told) = offset_fault(u64::from(MAX_OFFSET), word.offset) {
        return Some(told);
    }
    word_fault(word.unit, !is_among(hold, sofar), Wrong::Repeated)
}

/// Takes one more hold in.
fn take_hold(
    units: &Names<'_>,
    count: usize,
    rows: &mut SmallVec<Hold, 2>,
    word: HoldWord<'_>,
) -> Result<(), Refusal>
    ensures fault { Refuses result (hold_fault units.now count rows.old.items (hold_seen word.entry)) }
    ensures taken { OnOk result (rows.new.items ≡ rows.old.items ++ hold_in units.now (hold_seen word.entry) ∷ []) }
{
    let hold = hold_of(units, word);
    if let Some(told) = hold_fault(units, count, rows.as_slice(), word, hold) {
        return Err(Refusal::Fault(told));
    }
    rows.push(hold)?;
    Ok(())
}

/// Takes an alternative in, after `count` others.
fn take_holds(
    units: &Names<'_>,
    count: usize,
    rows: &mut SmallVec<Hold, 2>,
    mut holds: Holds<'_>,
) -> Result<(), Refusal>
    requires { rows.old.items ≡ [] }
    ensures fault { Refuses result (rest_fault units.now count [] holds.entry) }
    ensures taken { OnOk result (rows.new.items ≡ map (hold_in units.now) holds.entry) }
{
    while let Some(word) = holds.next_hold() {
        if let Err(refusal) = take_hold(units, count, rows, word) {
            return Err(refusal);
        }
    }
    Ok(())
}

/// Takes one more alternative in.
fn take_alternative(
    alloc: Global,
    units: &Names<'_>,
    alternatives: &mut SmallVec<SmallVec<Hold, 2>, 2>,
    holds: Holds<'_>,
) -> Result<(), Refusal>
    ensures fault { Refuses result (rest_fault units.now (length alternatives.old.items) [] holds.entry) }
    ensures taken { OnOk result (map (λ (rows : Items Hold). rows.items) alternatives.new.items ≡ map (λ (rows : Items Hold). rows.items) alternatives.old.items ++ map (hold_in units.now) holds.entry ∷ []) }
{
    let mut rows = SmallVec::new(alloc);
    take_holds(units, alternatives.len(), &mut rows, holds)?;
    alternatives.push(rows)?;
    Ok(())
}

/// Takes all alternatives of a `kind` line in.
fn take_each(
    alloc: Global,
    units: &Names<'_>,
    alternatives: &mut SmallVec<SmallVec<Hold, 2>, 2>,
    mut left: Alternatives<'_>,
) -> Result<(), Refusal>
    requires { alternatives.old.items ≡ [] }
    ensures fault { Refuses result (alternatives_fault units.now 0 left.entry) }
    ensures taken { OnOk result (map (λ (rows : Items Hold). rows.items) alternatives.new.items ≡ map (map (hold_in units.now)) left.entry) }
{
    while let Some(holds) = left.next_alternative() {
        if let Err(refusal) = take_alternative(alloc, units, alternatives, holds) {
            return Err(refusal);
        }
    }
    Ok(())
}

/// Adds the kind that a `kind` line declares.
pub(crate) fn add_kind(
    alloc: Global,
    kinds: &mut Vec<Kind>,
    units: &Names<'_>,
    latency: Number,
    left: Alternatives<'_>,
) -> Result<(), Refusal>
    ensures fault { Refuses result (alternatives_fault units.now 0 left.entry) }
    ensures added { OnOk result (map kind_seen kinds.new.items ≡ map kind_seen kinds.old.items ++ kind_of units.now latency left.entry ∷ []) }
{
    let mut kind = Kind {
        latency: latency.value,
        alternatives: SmallVec::new(alloc),
    };
    take_each(alloc, units, &mut kind.alternatives, left)?;
    kinds.push(kind)?;
    Ok(())
}
