//! What is known of the rows of an alternative at every interval: their units, and how far apart those of one unit
//! are.

ghost use Rattle.std.specs.Prelude.{◌≡◌, ◌<◌, ◌≤◌, ℕ};
ghost use Rattle.std.specs.List.{All, list_any};
ghost use Rattle.machine_data.specs.Alternative.{collides, rows_meet};
ghost use Rattle.mrt.specs.inner.Marks.{AreMultiples, Tells};
ghost use Rattle.mrt.specs.inner.Slots.{IsSlot, rows_in, HasUnits};
ghost use Rattle.machine_data.specs.declared.limits.TheConstants.{MAX_INTERVAL};

use crate::rosters::slot::Slot;

/// The bits of the units of some rows, and of the gaps between rows of one unit, in cycles. Two of the rows meet at an
/// interval just where a gap is one of its multiples.
#[derive(Clone, Copy)]
pub(crate) struct Marks {
    pub(crate) units: u64,
    pub(crate) gaps: u64,
}

/// The bits of the multiples of an interval that are below 64.
pub(crate) fn multiples(ii: usize) -> u64
    requires some { 0 < ii }
    requires few { ii ≤ MAX_INTERVAL }
    ensures { AreMultiples ii result }
{
    let mut bits = 0;
    for count in 0..63 / ii + 1 {
        bits |= 1 << (count * ii);
    }
    bits
}

/// What is known of the rows of some slots.
pub(crate) fn marks_of(slots: &[Slot]) -> Marks
    requires { All (λ s. s.row.offset < 64) slots.now }
    ensures units { (ii : ℕ) → All (IsSlot ii) slots.now → HasUnits result.units (rows_in slots.now) }
    ensures gaps { (ii : ℕ) → All (IsSlot ii) slots.now → Tells result.gaps (λ at. collides at (rows_in slots.now)) }
{
    let mut units = 0;
    let mut gaps = 0;
    for i in (0..slots.len()).rev() {
        let slot = &slots[i];
        if units & slot.mask != 0 {
            gaps |= gaps_between(slot, &slots[i + 1..]);
        }
        units |= slot.mask;
    }
    Marks { units, gaps }
}

/// The bits of the gaps between a slot and those of its unit among some others.
fn gaps_between(slot: &Slot, others: &[Slot]) -> u64
    requires offset { slot.now.row.offset < 64 }
    requires offsets { All (λ s. s.row.offset < 64) others.now }
    ensures { Tells result (λ at. list_any (λ s. rows_meet at slot.now.row 0 s 0) (rows_in others.now)) }
{
    let mut gaps = 0;
    for other in others {
        if slot.row.unit == other.row.unit {
            gaps |= 1 << slot.row.offset.abs_diff(other.row.offset);
        }
    }
    gaps
}
