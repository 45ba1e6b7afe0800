//! The first fault of a draft.

ghost use Rattle.std.specs.Prelude.{◌≡◌, IfOk};
ghost use Rattle.problems.specs.Faults.{first_fault_of, count_fault, part_fault};

use crate::checking::kinds::first_in_kinds;
use crate::checking::names::names_fault;
use crate::checking::parts::{
    first_in_files, first_in_operations, first_in_orders, first_in_reads, first_in_values,
};
use crate::draft::Draft;
use crate::fault::{Fault, Part};
use machine_data::OutOfMemory;
use machine_data::limits::{
    MAX_FILES, MAX_KINDS, MAX_ORDERS, MAX_READS, MAX_STATEMENTS, MAX_UNITS, MAX_VALUES,
};
use std::alloc::Global;

/// The first fault among the counts of a draft's parts.
fn count_fault(draft: &Draft) -> Option<Fault>
    ensures { result ≡ count_fault draft.now }
{
    if !(1..=MAX_UNITS).contains(&draft.units) {
        return Some(Fault::Count(Part::Units, draft.units));
    }
    if draft.files.len() > MAX_FILES {
        return Some(Fault::Count(Part::Files, draft.files.len()));
    }
    if !(1..=MAX_KINDS).contains(&draft.kinds.len()) {
        return Some(Fault::Count(Part::Kinds, draft.kinds.len()));
    }
    if !(1..=MAX_STATEMENTS).contains(&draft.operations.len()) {
        return Some(Fault::Count(Part::Operations, draft.operations.len()));
    }
    if draft.values.len() > MAX_VALUES {
        return Some(Fault::Count(Part::Values, draft.values.len()));
    }
    if draft.reads.len() > MAX_READS {
        return Some(Fault::Count(Part::Reads, draft.reads.len()));
    }
    if draft.orders.len() > MAX_ORDERS {
        return Some(Fault::Count(Part::Orders, draft.orders.len()));
    }
    None
}

/// The first fault of the parts of a draft, apart from counts and names.
fn part_fault(draft: &Draft) -> Option<Fault>
    ensures { result ≡ part_fault draft.now }
{
    if let Some(fault) = first_in_files(draft.files.as_slice()) {
        return Some(fault);
    }
    if let Some(fault) = first_in_kinds(draft.units, draft.kinds.as_slice()) {
        return Some(fault);
    }
    if let Some(fault) = first_in_operations(draft.kinds.len(), draft.operations.as_slice()) {
        return Some(fault);
    }
    let operations = draft.operations.len();
    if let Some(fault) = first_in_values(operations, draft.files.len(), draft.values.as_slice()) {
        return Some(fault);
    }
    if let Some(fault) = first_in_reads(draft, draft.reads.as_slice()) {
        return Some(fault);
    }
    first_in_orders(operations, draft.orders.as_slice())
}

/// The first thing that is wrong with a draft, if anything is: the counts of all parts come first, then the names of
/// all parts, and then the parts in the order of [`Part`], each from its first item to its last.
///
/// # Errors
/// [`OutOfMemory`], which says nothing of the draft.
pub fn first_fault(alloc: Global, draft: &Draft) -> Result<Option<Fault>, OutOfMemory>
    ensures { IfOk result (λ found. found ≡ first_fault_of draft.now) }
{
    if let Some(fault) = count_fault(draft) {
        return Ok(Some(fault));
    }
    if let Some(fault) = names_fault(alloc, draft)? {
        return Ok(Some(fault));
    }
    Ok(part_fault(draft))
}
