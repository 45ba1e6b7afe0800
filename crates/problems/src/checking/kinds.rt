//! The first fault of the kinds of operations.

ghost use Rattle.std.specs.Prelude.{◌≡◌, ◌<◌, length};
ghost use Rattle.std.specs.List.{list_any};
ghost use Rattle.smallvec.specs.SmallVec.{SmallVec as Items};
ghost use Rattle.problems.specs.declared.draft.Hold.{Hold};
ghost use Rattle.problems.specs.Faults.{first_in, same_hold, row_fault, alternative_fault, kind_fault};

use crate::draft::{Hold, Kind};
use crate::fault::Fault;
use machine_data::limits::{MAX_LATENCY, MAX_OFFSET, MAX_OPERATION_ALTERNATIVES, MAX_ROWS};
use smallvec::SmallVec;

/// Whether the two rows are the same.
fn same_hold(row: Hold, other: Hold) -> bool
    ensures { result ≡ same_hold row other }
{
    row.unit == other.unit && row.offset == other.offset
}

/// Whether a row is among others.
fn is_among(row: Hold, others: &[Hold]) -> bool
    ensures { result ≡ list_any (same_hold row) others.now }
{
    others.iter().any(|other| same_hold(row, *other))
}

/// The fault of the row with a number among the rows of an alternative. It is compared with those before it, which are
/// at most 15.
fn row_fault(
    units: usize,
    kind: usize,
    alternative: usize,
    rows: &[Hold],
    number: usize,
    row: Hold,
) -> Option<Fault>
    requires { number < length rows.now }
    ensures { result ≡ row_fault units kind alternative rows.now number row }
{
    if row.unit >= units {
        return Some(Fault::NoUnit(kind, alternative, number));
    }
    if row.offset > u64::from(MAX_OFFSET) {
        return Some(Fault::Offset(kind, alternative, number));
    }
    if is_among(row, &rows[..number]) {
        return Some(Fault::RepeatedRow(kind, alternative, number));
    }
    None
}

/// The first fault of an alternative, by its number and that of its kind.
fn alternative_fault(units: usize, kind: usize, alternative: usize, rows: &[Hold]) -> Option<Fault>
    ensures { result ≡ alternative_fault units kind alternative rows.now }
{
    if !(1..=MAX_ROWS).contains(&rows.len()) {
        return Some(Fault::Rows(kind, alternative));
    }
    for (number, row) in rows.iter().enumerate() {
        if let Some(fault) = row_fault(units, kind, alternative, rows, number, *row) {
            return Some(fault);
        }
    }
    None
}

/// The first fault of the alternatives of a kind, by its number.
fn first_in_alternatives(
    units: usize,
    kind: usize,
    alternatives: &[SmallVec<Hold, 2>],
) -> Option<Fault>
    ensures { result ≡ first_in (λ alternative (rows : Items Hold). alternative_fault units kind alternative rows.items) alternatives.now }
{
    for (alternative, rows) in alternatives.iter().enumerate() {
        if let Some(fault) = alternative_fault(units, kind, alternative, rows.as_slice()) {
            return Some(fault);
        }
    }
    None
}

/// The first fault of a kind, by its number.
fn kind_fault(units: usize, number: usize, kind: &Kind) -> Option<Fault>
    ensures { result ≡ kind_fault units number kind.now }
{
    if !(1..=u64::from(MAX_LATENCY)).contains(&kind.latency) {
        return Some(Fault::Latency(number));
    }
    if !(1..=MAX_OPERATION_ALTERNATIVES).contains(&kind.alternatives.len()) {
        return Some(Fault::Alternatives(number));
    }
    first_in_alternatives(units, number, kind.alternatives.as_slice())
}

/// The first fault of the kinds, where there are `units` units.
pub(crate) fn first_in_kinds(units: usize, kinds: &[Kind]) -> Option<Fault>
    ensures { result ≡ first_in (kind_fault units) kinds.now }
{
    for (number, kind) in kinds.iter().enumerate() {
        if let Some(fault) = kind_fault(units, number, kind) {
            return Some(fault);
        }
    }
    None
}
