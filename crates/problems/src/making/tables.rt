//! The latencies and the alternatives that the operations of a draft have from their kinds.

ghost use Rattle.std.specs.Prelude.{◌≡◌, ◌≤◌, ◌<◌, ◌+◌, [], length, map, take, slice_index, IfOk, IsTrue};
ghost use Rattle.std.specs.List.{All, slice_index_or};
ghost use Rattle.problems.specs.Drafts.{AreRows, IsKind, IsWellFormed, row_of, alternatives_of, latencies_of, operations_of};
ghost use Rattle.problems.specs.inner.Listed.{AreListed};
ghost use Rattle.machine_data.specs.declared.limits.TheConstants.{MAX_UNITS};

use crate::draft::{Draft, Hold, Kind};
use machine_data::{Alternative, Alternatives, OutOfMemory, Row};
use smallvec::SmallVec;
use std::alloc::Global;

/// The alternatives of operations: lists of them, and of each operation the number of its list.
#[derive(Drop)]
pub(crate) struct Tables {
    /// The lists. Kinds after one another that have the same alternatives share one.
    pub(crate) lists: Vec<Alternatives>,
    /// Of each operation the number of its list, from 0.
    pub(crate) numbers: Vec<usize>,
}

/// The latency of each operation: that of its kind.
pub(crate) fn latencies_of(alloc: Global, draft: &Draft) -> Result<Vec<u8>, OutOfMemory>
    requires { IsWellFormed draft.now }
    ensures { IfOk result (λ cycles. cycles.items ≡ latencies_of draft.now) }
{
    let mut cycles = Vec::with_capacity(alloc, draft.operations.len())?;
    for kind in draft.operations.as_slice() {
        cycles.push(draft.kinds[*kind].latency as u8)?;
    }
    Ok(cycles)
}

/// An alternative with these rows.
fn alternative_of(alloc: Global, units: usize, holds: &[Hold]) -> Result<Alternative, OutOfMemory>
    requires few { units ≤ MAX_UNITS }
    requires rows { AreRows units holds.now }
    ensures { IfOk result (λ made. made ≡ map row_of holds.now) }
{
    let mut rows = SmallVec::new(alloc);
    for hold in holds {
        rows.push(Row {
            unit: hold.unit as u8,
            offset: hold.offset as u8,
        })?;
    }
    Ok(Alternative::new(rows))
}

/// The alternatives of a kind, which its operations share.
fn alternatives_of(alloc: Global, units: usize, kind: &Kind) -> Result<Alternatives, OutOfMemory>
    requires few { units ≤ MAX_UNITS }
    requires kind { IsKind units kind.now }
    ensures { IfOk result (λ made. made ≡ alternatives_of kind.now) }
{
    let mut list = Vec::with_capacity(alloc, kind.alternatives.len())?;
    for rows in kind.alternatives.as_slice() {
        list.push(alternative_of(alloc, units, rows.as_slice())?)?;
    }
    Alternatives::shared(list)
}

/// Whether two kinds have the same alternatives.
fn are_same(kind: &Kind, other: &Kind) -> bool
    ensures { IsTrue result → alternatives_of kind.now ≡ alternatives_of other.now }
{
    kind.alternatives == other.alternatives
}

/// Adds the list of alternatives of the kind with a number, after those of the kinds before it. Where it is that of the kind
/// just before, both kinds share it.
fn push_kind(
    alloc: Global,
    units: usize,
    kinds: &[Kind],
    number: usize,
    lists: &mut Vec<Alternatives>,
    of_kinds: &mut Vec<usize>,
) -> Result<(), OutOfMemory>
    requires few { units ≤ MAX_UNITS }
    requires there { number < length kinds.now }
    requires kinds { All (IsKind units) kinds.now }
    requires sofar { AreListed lists.old.items of_kinds.old.items (map alternatives_of (take number kinds.now)) }
    ensures { IfOk result (λ _. AreListed lists.new.items of_kinds.new.items (map alternatives_of (take (number + 1) kinds.now))) }
{
    let kind = &kinds[number];
    if number > 0 && are_same(kind, &kinds[number - 1]) {
        let list = of_kinds[number - 1];
        of_kinds.push(list)?;
        return Ok(());
    }
    of_kinds.push(lists.len())?;
    lists.push(alternatives_of(alloc, units, kind)?)?;
    Ok(())
}

/// Of each kind the number of its list of alternatives among those that this appends to none.
fn push_kinds(
    alloc: Global,
    units: usize,
    kinds: &[Kind],
    lists: &mut Vec<Alternatives>,
) -> Result<Vec<usize>, OutOfMemory>
    requires few { units ≤ MAX_UNITS }
    requires kinds { All (IsKind units) kinds.now }
    requires none { lists.old.items ≡ [] }
    ensures { IfOk result (λ of_kinds. AreListed lists.new.items of_kinds.items (map alternatives_of kinds.now)) }
{
    let mut of_kinds = Vec::with_capacity(alloc, kinds.len())?;
    for number in 0..kinds.len() {
        push_kind(alloc, units, kinds, number, lists, &mut of_kinds)?;
    }
    Ok(of_kinds)
}

/// Of each operation the number of the list of its kind.
fn numbers_of(
    alloc: Global,
    operations: &[usize],
    of_kinds: &[usize],
) -> Result<Vec<usize>, OutOfMemory>
    requires { All (λ kind. kind < length of_kinds.now) operations.now }
    ensures { IfOk result (λ numbers. numbers.items ≡ map (slice_index of_kinds.now) operations.now) }
{
    let mut numbers = Vec::with_capacity(alloc, operations.len())?;
    for kind in operations {
        numbers.push(of_kinds[*kind])?;
    }
    Ok(numbers)
}

/// The alternatives of the operations of a draft.
pub(crate) fn tables_of(alloc: Global, draft: &Draft) -> Result<Tables, OutOfMemory>
    requires { IsWellFormed draft.now }
    ensures { IfOk result (λ tables. AreListed tables.lists.items tables.numbers.items (operations_of draft.now)) }
{
    let mut lists = Vec::with_capacity(alloc, draft.kinds.len())?;
    let kinds = draft.kinds.as_slice();
    let of_kinds = push_kinds(alloc, draft.units, kinds, &mut lists)?;
    let numbers = numbers_of(alloc, draft.operations.as_slice(), of_kinds.as_slice())?;
    Ok(Tables { lists, numbers })
}

/// The alternatives of each operation, in memory that those with one list share.
pub(crate) fn operations_of(
    alloc: Global,
    tables: &Tables,
) -> Result<Vec<Alternatives>, OutOfMemory>
    requires { All (λ number. number < length tables.now.lists.items) tables.now.numbers.items }
    ensures { IfOk result (λ made. made.items ≡ map (λ number. slice_index_or tables.now.lists.items number []) tables.now.numbers.items) }
{
    let mut operations = Vec::with_capacity(alloc, tables.numbers.len())?;
    for number in tables.numbers.as_slice() {
        operations.push(tables.lists[*number].copied(alloc)?)?;
    }
    Ok(operations)
}
