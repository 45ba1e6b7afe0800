//! The fullest set of units of operations.

ghost use Rattle.std.specs.Prelude.{[], ◌≡◌, ◌+◌, ◌-◌, ◌/◌, ◌<◌, ◌≤◌, IfOk, length};
ghost use Rattle.machine_data.specs.declared.limits.TheConstants.{MAX_STATEMENTS, MAX_UNITS};
ghost use Rattle.unit_sets.specs.Fullest.{IsFullest, IsFullestWith, first_sets as the_first_sets, units_in};
ghost use Rattle.unit_sets.specs.Sets.{is_in};
ghost use Rattle.unit_sets.specs.inner.Added.{IsAdded};
ghost use Rattle.unit_sets.specs.inner.Rated.{IsRated};

use crate::ROUNDS;
use crate::first_sets::first_sets;
use crate::rating::{Rated, rating_of};
use crate::units::has;
use machine_data::OutOfMemory;
use machine_data::limits::MAX_STATEMENTS;
use std::alloc::Global;
use unit_bound::Offers;

/// A set of units, with how often the operations of an iteration have to use them.
#[derive(Clone, Copy, Drop, PartialEq, Eq)]
pub struct UnitSet {
    /// The set: bit `u` tells whether unit `u` is one of it.
    pub units: u64,
    /// How many units it has.
    pub size: u32,
    /// How many rows of these units the operations have at least, whichever alternatives they take.
    pub rows: u16,
    /// The least interval, in cycles, at which the units have so many slots: the rows over their number, rounded up.
    pub need: u16,
}

impl UnitSet {
    /// Whether a unit is one of the set.
    pub fn has(&self, unit: u8) -> bool
        ensures { result ≡ is_in (units_in self.now.units) unit }
    {
        has(self.units, unit)
    }
}

/// Of the unions of a set with the first sets the one that leads.
fn fullest_with<O: Offers>(operations: &O, sets: &[u64], before: u64) -> Rated
    requires sound { O.sound operations.now }
    requires count { length (O.operations operations.now) ≤ MAX_STATEMENTS }
    requires some { 0 < length sets.now }
    requires sets { IsAdded [] (the_first_sets (O.operations operations.now)) sets.now }
    ensures fullest { IsFullestWith (O.operations operations.now) before result.units }
    ensures rated { IsRated (O.operations operations.now) result }
    ensures few { result.rows ≤ 2048 }
    ensures small { result.size ≤ MAX_UNITS }
{
    let mut best = rating_of(before | sets[0], operations);
    for number in 1..sets.len() {
        let next = rating_of(before | sets[number], operations);
        if next.leads(best) {
            best = next;
        }
    }
    best
}

/// The set that is reached after all rounds.
fn fullest_of<O: Offers>(operations: &O, sets: &[u64]) -> UnitSet
    requires sound { O.sound operations.now }
    requires count { length (O.operations operations.now) ≤ MAX_STATEMENTS }
    requires some { 0 < length sets.now }
    requires sets { IsAdded [] (the_first_sets (O.operations operations.now)) sets.now }
    ensures { IsFullest (O.operations operations.now) result }
{
    let mut best = fullest_with(operations, sets, 0);
    for _round in 1..ROUNDS {
        best = fullest_with(operations, sets, best.units);
    }
    UnitSet {
        units: best.units,
        size: best.size,
        rows: best.rows,
        need: need_of(best.rows, best.size),
    }
}

/// The least number of cycles in which so many units have so many slots.
fn need_of(rows: u16, units: u32) -> u16
    requires few { rows ≤ 2048 }
    requires size { units ≤ MAX_UNITS }
    ensures { result ≡ (rows + (units - 1)) / units }
{
    if units == 0 {
        return 0;
    }
    let units = units as u16;
    (rows + (units - 1)) / units
}

/// The fullest set of units of operations: a set of which they need the most rows for each unit, among those that are looked at. The
/// operations need these rows whichever alternatives they take, so that no schedule of them has an interval below `need`; a
/// set that is not looked at may need more.
///
/// The first sets are those of the operations: the units of the rows that an operation's alternatives have at one
/// place, as the first rows of all; all units of its alternatives; and all units of all operations. The fullest of
/// them is joined with each of them, then the fullest of these unions, and so on, four rounds in all. Of two
/// sets that are as full the smaller one is taken, then the one with the smaller word.
///
/// # Errors
/// Memory ran out.
pub fn fullest_set<O: Offers>(alloc: Global, operations: &O) -> Result<UnitSet, OutOfMemory>
    requires sound { O.sound operations.now }
    requires count { length (O.operations operations.now) ≤ MAX_STATEMENTS }
    ensures { IfOk result (IsFullest (O.operations operations.now)) }
{
    let sets = first_sets(alloc, operations)?;
    Ok(fullest_of(operations, sets.as_slice()))
}
