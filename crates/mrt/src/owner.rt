//! A modulo reservation table as a row of owners for each residue.

ghost use Rattle.std.specs.Prelude.{◌≡◌, ◌↔◌, ◌+◌, ◌*◌, ◌%◌, ◌^◌, ◌<◌, ◌≤◌, ℕ, length, replicate, Some, None, IsTrue, IfOk, if◌then◌else◌};
ghost use Rattle.std.specs.List.{All};
ghost use Rattle.machine_data.specs.Alternative.{residue_of};
ghost use Rattle.mrt.specs.Placements.{alternatives_of, IsFree};
ghost use Rattle.mrt.specs.inner.Slots.{IsSlot, rows_in, meets_held};
ghost use Rattle.mrt.specs.Taken.{takes};
ghost use Rattle.mrt.specs.inner.OwnerTables.{owner_at, is_owned};
ghost use Rattle.machine_data.specs.declared.limits.TheConstants.{MAX_INTERVAL, MAX_UNITS};

use crate::memory::refill;
use crate::rosters::roster::{Issue, Roster};
use crate::rosters::slot::Slot;
use crate::table::ModuloTable;
use machine_data::{Alternatives, OutOfMemory};
use std::alloc::Global;
use std::marker::Model;

/// The owner of a slot that no operation holds.
const FREE: usize = usize::MAX;

/// A modulo reservation table that keeps, for each residue and unit, the operation that holds the slot.
/// Contracts see the interval, the alternatives of each operation and the set of placements.
#[derive(Drop)]
pub struct OwnerTable {
    roster: Roster,
    /// One more than the greatest unit of an alternative.
    units: usize,
    /// For each residue a row of `units` owners.
    owners: Vec<usize>,
}

impl Model for OwnerTable {
    ghost use Rattle.mrt.specs.inner.Rosters.{Table};
    ghost use Rattle.mrt.specs.inner.OwnerTables.{IsOwnerTable};

    ghost Value = { Table };

    ghost view = { λ t. t.roster };

    ghost invariant = { λ t. IsOwnerTable t.roster t.units t.owners.items };
}

impl OwnerTable {
    /// The table of some operations, of which none is placed.
    fn over(alloc: Global, roster: Roster) -> Result<OwnerTable, OutOfMemory>
        requires empty { roster.placed ≡ replicate (length roster.operations) None }
        requires short { length roster.operations < 2 ^ 64 }
        ensures { IfOk result (λ table. table ≡ roster) }
    {
        let units = roster.units();
        let owners = vec![in alloc; FREE; roster.ii() * units]?;
        Ok(OwnerTable {
            roster,
            units,
            owners,
        })
    }

    /// Whether an operation can be issued by one of its alternatives at the times with a residue.
    fn is_free(&self, op: usize, alternative: usize, base: usize) -> bool
        requires there { op < length self.now.operations }
        requires alternative { alternative < length (alternatives_of self.now.operations op) }
        requires base { base < self.now.interval }
        ensures { (time : ℕ) → time % self.now.interval ≡ base
            → IsTrue result ↔ IsFree self.now.interval self.now.operations self.now.placed op time alternative }
    {
        let Some(slots) = self.roster.usable(op, alternative) else {
            return false;
        };
        !is_met(&self.owners, slots, self.roster.ii(), self.units, base)
    }
}

impl ModuloTable for OwnerTable {
    ghost placed = { λ t. t.placed };

    ghost operations = { λ t. t.operations };

    ghost interval = { λ t. t.interval };

    fn make(
        alloc: Global,
        alternatives: &[Alternatives],
        ii: u64,
    ) -> Result<OwnerTable, OutOfMemory> {
        let roster = Roster::new(alloc, alternatives, ii as usize)?;
        OwnerTable::over(alloc, roster)
    }

    fn of_kinds(
        alloc: Global,
        alternatives: &[Alternatives],
        kinds: &[usize],
        ii: u64,
    ) -> Result<OwnerTable, OutOfMemory> {
        let roster = Roster::of_kinds(alloc, alternatives, kinds, ii as usize)?;
        OwnerTable::over(alloc, roster)
    }

    fn at(self, ii: u64) -> Result<OwnerTable, OutOfMemory> {
        let OwnerTable {
            mut roster,
            units,
            mut owners,
        } = self;
        roster.reset(ii as usize);
        refill(&mut owners, ii as usize * units, FREE)?;
        Ok(OwnerTable {
            roster,
            units,
            owners,
        })
    }

    fn ii(&self) -> u64 {
        self.roster.ii() as u64
    }

    fn free(&self, op: usize, time: u64) -> Option<usize> {
        let base = self.roster.residue(time);
        for alternative in 0..self.roster.count(op) {
            if self.is_free(op, alternative, base) {
                return Some(alternative);
            }
        }
        None
    }

    fn holder(&self, op: usize, alternative: usize, row: usize, time: u64) -> Option<usize> {
        let slot = self.roster.slots(op, alternative)[row];
        let owner = self.owners[place(
            &slot,
            self.roster.ii(),
            self.units,
            self.roster.residue(time),
        )];
        if owner == FREE { None } else { Some(owner) }
    }

    fn claim(&mut self, op: usize, time: u64, alternative: usize) {
        let ii = self.roster.ii();
        let base = self.roster.residue(time);
        let slots = self.roster.slots(op, alternative);
        mark(&mut self.owners, slots, ii, self.units, base, op);
        self.roster.place(
            op,
            Issue {
                time: time as u32,
                base: base as u32,
                alternative,
            },
        );
    }

    fn release(&mut self, op: usize) {
        if let Some(issue) = self.roster.issue(op) {
            let ii = self.roster.ii();
            let slots = self.roster.slots(op, issue.alternative);
            let base = issue.base as usize;
            mark(&mut self.owners, slots, ii, self.units, base, FREE);
            self.roster.remove(op);
        }
    }
}

/// Where the owner of a slot stands, for an operation issued at a time whose residue is `base`.
fn place(slot: &Slot, ii: usize, units: usize, base: usize) -> usize
    requires slot { IsSlot ii slot.now }
    requires unit { slot.now.row.unit < units }
    requires few_units { units ≤ MAX_UNITS }
    requires base { base < ii }
    requires few { ii ≤ MAX_INTERVAL }
    ensures within { result < ii * units }
    ensures value { (time : ℕ) → time % ii ≡ base → result ≡ residue_of ii slot.now.row time * units + slot.now.row.unit }
{
    slot.residue(base, ii) * units + usize::from(slot.row.unit)
}

/// Whether some slot has an owner.
fn is_met(owners: &[usize], slots: &[Slot], ii: usize, units: usize, base: usize) -> bool
    requires long { length owners.now ≡ ii * units }
    requires slots { All (IsSlot ii) slots.now }
    requires covered { All (λ s. s.row.unit < units) slots.now }
    requires few_units { units ≤ MAX_UNITS }
    requires base { base < ii }
    requires few { ii ≤ MAX_INTERVAL }
    ensures { (time : ℕ) → time % ii ≡ base → result ≡ meets_held ii (is_owned units owners.now) (rows_in slots.now) time }
{
    for slot in slots {
        if owners[place(slot, ii, units, base)] != FREE {
            return true;
        }
    }
    false
}

/// Gives slots to an owner.
fn mark(owners: &mut [usize], slots: &[Slot], ii: usize, units: usize, base: usize, owner: usize)
    requires long { length owners.old ≡ ii * units }
    requires slots { All (IsSlot ii) slots.now }
    requires covered { All (λ s. s.row.unit < units) slots.now }
    requires few_units { units ≤ MAX_UNITS }
    requires base { base < ii }
    requires few { ii ≤ MAX_INTERVAL }
    ensures { (time unit residue : ℕ) → time % ii ≡ base → unit < units → residue < ii
        → owner_at units owners.new unit residue ≡ (if takes ii (rows_in slots.now) time unit residue then owner else owner_at units owners.old unit residue) }
{
    for slot in slots {
        owners[place(slot, ii, units, base)] = owner;
    }
}
