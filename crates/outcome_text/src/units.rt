//! The line of the units that the resource-constrained lower bound is due to.

ghost use Rattle.std.specs.Prelude.{◌≡◌, ℕ, ◌*◌, ◌≤◌, ◌<◌, ◌==◌, ◌++◌, List, length, count_by, slice_index, IfOk, OnOk};
ghost use Rattle.std.specs.List.{All};
ghost use Rattle.machine_data.specs.declared.alternative.Row.{Row};
ghost use Rattle.machine_data.specs.declared.limits.TheConstants.{MAX_ROWS, MAX_UNITS};
ghost use Rattle.machine_data.specs.Alternative.{AreAlternatives};
ghost use Rattle.unit_bound.specs.Units.{chosen_rows, use_of};
ghost use Rattle.resource_bound.specs.Choices.{rows_at};
ghost use Rattle.outcome_text.specs.Notes.{AreFullest, full_line, units_with};
ghost use Rattle.outcome_text.specs.inner.Counts.{AreUses, IsCounted};

use crate::listed::push_listed;
use machine_data::limits::MAX_STATEMENTS;
use machine_data::{Alternatives, OutOfMemory, Row};
use problems::{Draft, Problem};
use resource_bound::unit_choices_of;
use std::alloc::Global;
use writing::Text;

/// The rows of the alternative that an operation takes by these choices, at most 16; none where there is no such alternative.
pub fn rows_at<'a>(operations: &'a [Alternatives], choices: &[u8], number: usize) -> &'a [Row]
    requires there { number < length operations.now }
    requires chosen { number < length choices.now }
    ensures value { result.now ≡ rows_at operations.now choices.now number }
    ensures few { length result.now ≤ MAX_ROWS }
{
    let choice = usize::from(choices[number]);
    match operations[number].as_slice().get(choice) {
        Some(alternative) => alternative.rows(),
        None => &[],
    }
}

/// How many of the rows use a unit.
pub fn rows_with(rows: &[Row], unit: usize) -> u64
    ensures value { result ≡ use_of rows.now unit }
    ensures few { result ≤ length rows.now }
{
    rows.iter()
        .filter(|row| usize::from(row.unit) == unit)
        .count() as u64
}

/// How many of the rows of all choices use a unit; there are at most 128 operations.
pub fn use_of(operations: &[Alternatives], choices: &[u8], unit: usize) -> u64
    requires each { length choices.now ≡ length operations.now }
    requires few { length operations.now ≤ MAX_STATEMENTS }
    ensures { result ≡ use_of (chosen_rows operations.now choices.now) unit }
{
    let mut uses = 0;
    for number in 0..operations.len() {
        uses += rows_with(rows_at(operations, choices, number), unit);
    }
    uses
}

/// As many units as a row could name.
const UNITS: usize = 256;

/// Adds to the count of each unit how many of the rows use it.
fn count_rows(rows: &[Row], counts: &mut [u16])
    requires few { length rows.now ≤ MAX_ROWS }
    requires long { length counts.old ≡ UNITS }
    requires room { (unit : ℕ) → unit < UNITS → slice_index counts.old unit ≤ MAX_ROWS * MAX_STATEMENTS }
    ensures { IsCounted rows.now counts.old counts.new }
{
    for row in rows {
        let unit = usize::from(row.unit);
        let count = counts[unit] + 1;
        counts[unit] = count;
    }
}

/// Counts how many of the rows of all choices use each unit.
fn count_uses(operations: &[Alternatives], choices: &[u8], counts: &mut [u16])
    requires each { length choices.now ≡ length operations.now }
    requires few { length operations.now ≤ MAX_STATEMENTS }
    requires long { length counts.old ≡ UNITS }
    requires none { (unit : ℕ) → slice_index counts.old unit ≡ 0 }
    ensures { AreUses (chosen_rows operations.now choices.now) counts.new }
{
    for number in 0..operations.len() {
        count_rows(rows_at(operations, choices, number), counts);
    }
}

/// Of `units` units, in order, those of which exactly `uses` uses are counted.
fn units_counted(
    alloc: Global,
    units: usize,
    counts: &[u16],
    uses: u64,
) -> Result<Vec<usize>, OutOfMemory>
    requires few { units ≤ MAX_UNITS }
    requires long { length counts.now ≡ UNITS }
    ensures { IfOk result (λ full. (rows : List Row) → AreUses rows counts.now → full.items ≡ units_with units rows uses) }
{
    let mut full = Vec::new(alloc);
    for unit in 0..units {
        let count = u64::from(counts[unit]);
        if count == uses {
            full.push(unit)?;
        }
    }
    Ok(full)
}

/// Of `units` units, in order, those that exactly `uses` rows of all choices use.
fn units_with(
    alloc: Global,
    units: usize,
    operations: &[Alternatives],
    choices: &[u8],
    uses: u64,
) -> Result<Vec<usize>, OutOfMemory>
    requires units { units ≤ MAX_UNITS }
    requires each { length choices.now ≡ length operations.now }
    requires few { length operations.now ≤ MAX_STATEMENTS }
    ensures { IfOk result (λ full. full.items ≡ units_with units (chosen_rows operations.now choices.now) uses) }
{
    let mut counts = [0; UNITS];
    count_uses(operations, choices, &mut counts);
    let full = units_counted(alloc, units, &counts, uses)?;
    Ok(full)
}

/// The units that the resource-constrained bound is due to, in order: those that are used as often as it says when each operation
/// takes the alternative that the bound counts.
///
/// # Errors
/// Memory ran out.
pub fn fullest_of(alloc: Global, problem: &Problem) -> Result<Vec<usize>, OutOfMemory>
    ensures { IfOk result (λ units. AreFullest problem.now units.items) }
{
    let scheduling = problem.scheduling();
    prove!(scheduling.operations() <= MAX_STATEMENTS);
    let operations = scheduling.alternatives();
    let choices = unit_choices_of(alloc, operations)?;
    units_with(
        alloc,
        problem.draft().units,
        operations,
        choices.as_slice(),
        scheduling.resources(),
    )
}

/// Appends the line of full units; nothing where there are none.
fn push_full_line(text: &mut Vec<u8>, draft: &Draft, units: &[usize]) -> Result<(), OutOfMemory>
    ensures ok { OnOk result (text.new.items ≡ text.old.items ++ full_line draft.now units.now) }
{
    if units.is_empty() {
        return Ok(());
    }
    push_listed(text, "# full", draft.names.units.as_slice(), units)?;
    text.push_piece("\n")
}

/// Appends the line of the units that the resource-constrained bound is due to.
pub(crate) fn push_fullest(
    alloc: Global,
    text: &mut Vec<u8>,
    problem: &Problem,
) -> Result<(), OutOfMemory>
    ensures ok { OnOk result ((units : List ℕ) × AreFullest problem.now units × (text.new.items ≡ text.old.items ++ full_line problem.now.draft units)) }
{
    let units = fullest_of(alloc, problem)?;
    push_full_line(text, problem.draft(), units.as_slice())
}
