//! The sets of units that unions are made of.

ghost use Rattle.std.specs.Prelude.{[], ◌∷◌, IfOk, OnOk};
ghost use Rattle.std.specs.List.{flat_map};
ghost use Rattle.machine_data.specs.Alternative.{AreAlternatives};
ghost use Rattle.unit_sets.specs.Fullest.{first_sets as the_first_sets, sets_of};
ghost use Rattle.unit_sets.specs.inner.Added.{IsAdded};

use crate::units::{at_place, of_all, with_alternatives};
use machine_data::{Alternative, OutOfMemory};
use std::alloc::Global;
use unit_bound::Offers;

/// Appends a set if it is not there.
fn push_new(sets: &mut Vec<u64>, set: u64) -> Result<(), OutOfMemory>
    ensures { OnOk result (IsAdded sets.old.items (set ∷ []) sets.new.items) }
{
    if sets.contains(&set) {
        return Ok(());
    }
    sets.push(set)?;
    Ok(())
}

/// Appends the sets of an operation that are not there.
fn push_sets_of(sets: &mut Vec<u64>, alternatives: &[Alternative]) -> Result<(), OutOfMemory>
    requires { AreAlternatives alternatives.now }
    ensures { OnOk result (IsAdded sets.old.items (sets_of alternatives.now) sets.new.items) }
{
    for place in 0..alternatives[0].rows().len() {
        push_new(sets, at_place(alternatives, place))?;
    }
    push_new(sets, with_alternatives(0, alternatives))
}

/// Appends the sets of all operations that are not there.
fn push_sets<O: Offers>(sets: &mut Vec<u64>, operations: &O) -> Result<(), OutOfMemory>
    requires { O.sound operations.now }
    ensures { OnOk result (IsAdded sets.old.items (flat_map sets_of (O.operations operations.now)) sets.new.items) }
{
    for number in 0..operations.count() {
        push_sets_of(sets, operations.alternatives(number))?;
    }
    Ok(())
}

/// The first sets of operations, each once.
pub(crate) fn first_sets<O: Offers>(alloc: Global, operations: &O) -> Result<Vec<u64>, OutOfMemory>
    requires { O.sound operations.now }
    ensures { IfOk result (λ sets. IsAdded [] (the_first_sets (O.operations operations.now)) sets.items) }
{
    let mut sets = Vec::new(alloc);
    push_sets(&mut sets, operations)?;
    push_new(&mut sets, of_all(operations))?;
    Ok(sets)
}
