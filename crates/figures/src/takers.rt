//! Which operation takes each slot of the modulo reservation table.

ghost use Rattle.std.specs.Prelude.{◌≡◌, ◌<◌, ◌≤◌, ◌*◌, ◌^◌, ◌++◌, ℕ, [], ◌∷◌, filter, length, if◌then◌else◌, slice_index, IfOk, OnOk};
ghost use Rattle.std.specs.List.{All};
ghost use Rattle.mrt.specs.Taken.{takes};
ghost use Rattle.figures.specs.Slots.{busy_count, is_used, percent_of, rows_at, slot_taker, used_units};
ghost use Rattle.figures.specs.inner.Tables.{AreTakersFrom, taker_in};
ghost use Rattle.machine_data.specs.declared.limits.TheConstants.{MAX_INTERVAL, MAX_UNITS};

use loop_schedules::Schedule;
use machine_data::limits::MAX_UNITS;
use machine_data::{Machine, OutOfMemory, Row};
use std::alloc::Global;
use std::marker::Model;

/// Which operation takes each slot of the modulo reservation table of a schedule. Contracts see the schedule.
#[derive(Drop)]
pub struct Takers<'s, 'a> {
    schedule: &'s Schedule<'a>,
    /// For each row and unit, one row after another, the number and 1 of the operation that takes the slot, or 0.
    places: Vec<u8>,
}

impl<'s, 'a> Model for Takers<'s, 'a> {
    ghost use Rattle.std.specs.Prelude.{◌≡◌, ◌*◌, length};
    ghost use Rattle.loop_schedules.specs.Schedules.{ScheduleData};
    ghost use Rattle.figures.specs.inner.Tables.{AreTakersFrom};

    ghost Value = { ScheduleData };

    ghost view = { λ t. t.schedule.now };

    ghost invariant = { λ t. (length t.places.items ≡ t.schedule.now.ii * 64) × AreTakersFrom t.schedule.now 0 t.places.items };
}

/// The reservation table by which an operation is issued.
pub fn rows_at<'a>(schedule: &Schedule<'a>, op: usize) -> &'a [Row]
    requires { op < length schedule.now.problem.operations }
    ensures value { result.now ≡ rows_at schedule.now op }
    ensures units { All (λ r. r.unit < MAX_UNITS) result.now }
{
    let alternative = schedule.alternative(op);
    schedule.prepared().alternatives()[op].as_slice()[alternative].rows()
}

/// Writes a place for each slot that these rows take, issued at this time.
fn mark_rows(takers: &mut [u8], ii: u64, rows: &[Row], time: u64, place: u8)
    requires some { 1 ≤ ii }
    requires few { ii ≤ MAX_INTERVAL }
    requires long { length takers.old ≡ ii * 64 }
    requires units { All (λ r. r.unit < MAX_UNITS) rows.now }
    requires time { time < 2 ^ 32 }
    ensures marked { (unit row : ℕ) → unit < MAX_UNITS → row < ii → taker_in takers.new unit row ≡ (if takes ii rows.now time unit row then place else taker_in takers.old unit row) }
{
    for held in rows {
        let residue = (time + u64::from(held.offset)) % ii;
        takers[residue as usize * MAX_UNITS + usize::from(held.unit)] = place;
    }
}

/// Writes for each slot that an operation takes the operation's number and 1: of several operations the first
/// one's, though a schedule has none that share a slot.
fn fill_takers(schedule: &Schedule, takers: &mut [u8])
    requires long { length takers.old ≡ schedule.now.ii * 64 }
    requires free { (k : ℕ) → slice_index takers.old k ≡ 0 }
    ensures { AreTakersFrom schedule.now 0 takers.new }
{
    let ii = schedule.ii();
    for op in (0..schedule.prepared().operations()).rev() {
        let rows = rows_at(schedule, op);
        mark_rows(takers, ii, rows, schedule.time(op), op as u8 + 1);
    }
}

impl<'s, 'a> Takers<'s, 'a> {
    /// The slots of a schedule.
    ///
    /// # Errors
    /// [`OutOfMemory`] where memory ran out.
    pub fn of(alloc: Global, schedule: &'s Schedule<'a>) -> Result<Takers<'s, 'a>, OutOfMemory>
        ensures { IfOk result (λ t. t ≡ schedule.now) }
    {
        let mut places = vec![in alloc; 0u8; schedule.ii() as usize * MAX_UNITS]?;
        fill_takers(schedule, &mut places);
        Ok(Takers { schedule, places })
    }

    /// The operation that takes the slot of a unit in a row, if one does.
    pub fn taker(&self, unit: u8, row: u64) -> Option<usize>
        requires unit { unit < MAX_UNITS }
        requires row { row < self.now.ii }
        ensures { result ≡ slot_taker self.now unit row }
    {
        match self.places[row as usize * MAX_UNITS + usize::from(unit)] {
            0 => None,
            place => Some(usize::from(place) - 1),
        }
    }

    /// In how many rows some operation takes a unit.
    fn busy(&self, unit: u8) -> u64
        requires { unit < MAX_UNITS }
        ensures count { result ≡ busy_count self.now unit }
        ensures few { result ≤ MAX_INTERVAL }
    {
        let mut busy = 0;
        for row in 0..self.schedule.ii() {
            busy += u64::from(self.taker(unit, row).is_some());
        }
        busy
    }

    /// Whether some operation takes a unit.
    pub fn is_used(&self, unit: u8) -> bool
        requires { unit < MAX_UNITS }
        ensures { result ≡ is_used self.now unit }
    {
        self.busy(unit) > 0
    }

    /// In how many hundredths of the interval a unit is taken, rounded down: 0 to 100.
    pub fn percent(&self, unit: u8) -> u64
        requires { unit < MAX_UNITS }
        ensures { result ≡ percent_of self.now unit }
    {
        100 * self.busy(unit) / self.schedule.ii()
    }

    /// Adds a unit, if some operation takes it.
    fn push_used(&self, units: &mut Vec<u8>, unit: u8) -> Result<(), OutOfMemory>
        requires { unit < MAX_UNITS }
        ensures { OnOk result (units.new.items ≡ units.old.items ++ filter (is_used self.now) (unit ∷ [])) }
    {
        if self.is_used(unit) {
            units.push(unit)?;
        }
        Ok(())
    }

    /// The units of the machine that operations take, in the machine's order.
    ///
    /// # Errors
    /// [`OutOfMemory`] where memory ran out.
    pub fn units(&self, alloc: Global, machine: &Machine) -> Result<Vec<u8>, OutOfMemory>
        ensures units { IfOk result (λ units. units.items ≡ used_units machine.now self.now) }
        ensures few { IfOk result (λ units. All (λ unit. unit < MAX_UNITS) units.items) }
    {
        let mut units = Vec::new(alloc);
        for unit in 0..machine.units().len() {
            self.push_used(&mut units, unit as u8)?;
        }
        Ok(units)
    }
}
