//! The first fault of the names of a draft.

ghost use Rattle.std.specs.Prelude.{◌≡◌, ◌||◌, ℕ, List, IfOk, OnOk, length, not};
ghost use Rattle.machine_data.specs.Opcodes.{same_word};
ghost use Rattle.problems.specs.inner.Seen.{is_seen};
ghost use Rattle.problems.specs.Faults.{first_in, repeat_fault, name_fault, names_fault};

use crate::draft::Draft;
use crate::fault::{Fault, Part};
use crate::label::Label;
use machine_data::OutOfMemory;
use std::alloc::Global;
use std::collections::BTreeSet;

/// Adds a name, unless it is there already. The result is whether it was added.
fn add<'a>(seen: &mut BTreeSet<&'a str>, name: &'a str) -> Result<bool, OutOfMemory>
    ensures added { IfOk result (λ added. added ≡ not (is_seen seen.old name.now)) }
    ensures seen { OnOk result ((q : List ℕ) → is_seen seen.new q ≡ (is_seen seen.old q || same_word q name.now)) }
{
    Ok(seen.insert(name)?)
}

/// The first name that stands before it too.
fn first_repeated(alloc: Global, part: Part, names: &[Label]) -> Result<Option<Fault>, OutOfMemory>
    ensures { IfOk result (λ found. found ≡ first_in (repeat_fault part names.now) names.now) }
{
    let mut seen = BTreeSet::new(alloc);
    for (number, name) in names.iter().enumerate() {
        if !add(&mut seen, name.as_str())? {
            return Ok(Some(Fault::Repeated(part, number)));
        }
    }
    Ok(None)
}

/// The first fault of the names of a part, of which there are `count`.
fn name_fault(
    alloc: Global,
    part: Part,
    count: usize,
    names: &[Label],
) -> Result<Option<Fault>, OutOfMemory>
    ensures { IfOk result (λ found. found ≡ name_fault part count names.now) }
{
    if names.is_empty() {
        return Ok(None);
    }
    if names.len() != count {
        return Ok(Some(Fault::NameCount(part)));
    }
    first_repeated(alloc, part, names)
}

/// The first fault of the names of all parts.
pub(crate) fn names_fault(alloc: Global, draft: &Draft) -> Result<Option<Fault>, OutOfMemory>
    ensures { IfOk result (λ found. found ≡ names_fault draft.now) }
{
    let names = &draft.names;
    if let Some(fault) = name_fault(alloc, Part::Units, draft.units, names.units.as_slice())? {
        return Ok(Some(fault));
    }
    let files = draft.files.len();
    if let Some(fault) = name_fault(alloc, Part::Files, files, names.files.as_slice())? {
        return Ok(Some(fault));
    }
    let kinds = draft.kinds.len();
    if let Some(fault) = name_fault(alloc, Part::Kinds, kinds, names.kinds.as_slice())? {
        return Ok(Some(fault));
    }
    let count = draft.operations.len();
    if let Some(fault) = name_fault(alloc, Part::Operations, count, names.operations.as_slice())? {
        return Ok(Some(fault));
    }
    let values = draft.values.len();
    name_fault(alloc, Part::Values, values, names.values.as_slice())
}
