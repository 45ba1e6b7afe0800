//! One row of a reservation table, prepared for one initiation interval.

ghost use Rattle.std.specs.Prelude.{◌≡◌, ◌%◌, ◌<◌, ◌≤◌, ℕ};
ghost use Rattle.machine_data.specs.Alternative.{residue_of};
ghost use Rattle.mrt.specs.inner.Slots.{IsSlot, slot_at};
ghost use Rattle.machine_data.specs.declared.limits.TheConstants.{MAX_INTERVAL, MAX_UNITS};

use machine_data::Row;

/// A row, and what a query needs of it at one interval.
#[derive(Clone, Copy)]
pub struct Slot {
    /// The row as the alternative has it.
    pub(crate) row: Row,
    /// The row's offset modulo the interval.
    pub(crate) turn: u32,
    /// The bit of the row's unit.
    pub(crate) mask: u64,
}

impl Slot {
    /// What an interval makes of a row.
    pub(crate) fn new(row: Row, ii: usize) -> Slot
        requires some { 0 < ii }
        requires few { ii ≤ MAX_INTERVAL }
        requires unit { row.unit < MAX_UNITS }
        ensures row { result.row ≡ row }
        ensures slot { IsSlot ii result }
    {
        Slot {
            row,
            turn: turn(row.offset, ii),
            mask: 1 << row.unit,
        }
    }

    /// Prepares the row for another interval.
    pub(crate) fn reset(&mut self, ii: usize)
        requires some { 0 < ii }
        requires few { ii ≤ MAX_INTERVAL }
        ensures { self.new ≡ slot_at ii self.old }
    {
        self.turn = turn(self.row.offset, ii);
    }

    /// The residue that the row takes, for an operation issued at a time whose own residue is `base`.
    pub(crate) fn residue(&self, base: usize, ii: usize) -> usize
        requires slot { IsSlot ii self.now }
        requires base { base < ii }
        requires few { ii ≤ MAX_INTERVAL }
        ensures below { result < ii }
        ensures value { (time : ℕ) → time % ii ≡ base → result ≡ residue_of ii self.now.row time }
    {
        let sum = base + self.turn as usize;
        if sum < ii { sum } else { sum - ii }
    }
}

/// An offset modulo the interval, without a division where it is below.
fn turn(offset: u8, ii: usize) -> u32
    requires some { 0 < ii }
    requires few { ii ≤ MAX_INTERVAL }
    ensures { result ≡ offset % ii }
{
    let offset = u32::from(offset);
    let ii = ii as u32;
    if offset < ii { offset } else { offset % ii }
}
