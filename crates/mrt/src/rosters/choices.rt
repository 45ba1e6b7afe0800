//! Alternatives in one piece of memory, prepared for one initiation interval.

ghost use Rattle.std.specs.Prelude.{◌≡◌, ◌++◌, ◌∷◌, [], ◌<◌, ◌≤◌, length, map, take, drop, IfOk, OnOk, OnErr, slice_index_or};
ghost use Rattle.std.specs.List.{All};
ghost use Rattle.machine_data.specs.Alternative.{IsAlternative, collides};
ghost use Rattle.mrt.specs.inner.Slots.{IsSlot, slot_at, rows_in, HasUnits};
ghost use Rattle.machine_data.specs.declared.limits.TheConstants.{MAX_INTERVAL, MAX_UNITS};

use crate::rosters::marks::{Marks, marks_of, multiples};
use crate::rosters::slot::Slot;
use machine_data::{OutOfMemory, Row};
use std::alloc::Global;
use std::marker::Model;

/// Where the slots of one alternative stand, and what is known of its rows at every interval.
#[derive(Clone, Copy)]
struct Span {
    start: usize,
    end: usize,
    marks: Marks,
}

/// Alternatives at one interval. Contracts see the interval and the alternatives' rows.
#[derive(Drop)]
pub(crate) struct Choices {
    ii: usize,
    /// The bits of the multiples of the interval.
    multiples: u64,
    slots: Vec<Slot>,
    spans: Vec<Span>,
}

impl Model for Choices {
    ghost use Rattle.std.specs.Prelude.{map};
    ghost use Rattle.mrt.specs.inner.Choices.{Offered, rows_at, AreChoices};

    ghost Value = { Offered };

    ghost view = { λ c. record { interval = c.ii; alternatives = map (rows_at c.slots.items) c.spans.items } };

    ghost invariant = { λ c. AreChoices c.ii c.multiples c.slots.items c.spans.items };
}

impl Choices {
    /// No alternatives yet, with room for some, so that few of them take memory once more.
    pub(crate) fn new(alloc: Global, ii: usize) -> Result<Choices, OutOfMemory>
        requires some { 0 < ii }
        requires few { ii ≤ MAX_INTERVAL }
        ensures interval { IfOk result (λ c. c.interval ≡ ii) }
        ensures empty { IfOk result (λ c. c.alternatives ≡ []) }
    {
        Ok(Choices {
            ii,
            multiples: multiples(ii),
            slots: Vec::with_capacity(alloc, 64)?,
            spans: Vec::with_capacity(alloc, 32)?,
        })
    }

    /// The same alternatives at another interval.
    pub(crate) fn reset(&mut self, ii: usize)
        requires some { 0 < ii }
        requires few { ii ≤ MAX_INTERVAL }
        ensures interval { self.new.interval ≡ ii }
        ensures alternatives { self.new.alternatives ≡ self.old.alternatives }
    {
        self.ii = ii;
        self.multiples = multiples(ii);
        reset_slots(&mut self.slots, ii);
    }

    /// The interval, in cycles.
    pub(crate) fn ii(&self) -> usize
        ensures value { result ≡ self.now.interval }
        ensures some { 0 < self.now.interval }
        ensures few { self.now.interval ≤ MAX_INTERVAL }
    {
        self.ii
    }

    /// How many alternatives there are.
    pub(crate) fn len(&self) -> usize
        ensures { result ≡ length self.now.alternatives }
    {
        self.spans.len()
    }

    /// Whether two rows of an alternative meet, so that nothing can be issued by it.
    pub(crate) fn collides(&self, choice: usize) -> bool
        requires { choice < length self.now.alternatives }
        ensures { result ≡ collides self.now.interval (slice_index_or self.now.alternatives choice []) }
    {
        self.spans[choice].marks.gaps & self.multiples != 0
    }

    /// The bits of the units of an alternative's rows.
    pub(crate) fn unit_bits(&self, choice: usize) -> u64
        requires { choice < length self.now.alternatives }
        ensures { HasUnits result (slice_index_or self.now.alternatives choice []) }
    {
        self.spans[choice].marks.units
    }

    /// The slots of an alternative.
    pub(crate) fn slots(&self, choice: usize) -> &[Slot]
        requires { choice < length self.now.alternatives }
        ensures rows { rows_in result.now ≡ slice_index_or self.now.alternatives choice [] }
        ensures slots { All (IsSlot self.now.interval) result.now }
    {
        let span = self.spans[choice];
        &self.slots[span.start..span.end]
    }

    /// One more than the greatest unit of an alternative, or 0.
    pub(crate) fn units(&self) -> usize
        ensures few { result ≤ 64 }
        ensures covered { All (All (λ r. r.unit < result)) self.now.alternatives }
    {
        let mut units = 0;
        for slot in &self.slots {
            units = units.max(usize::from(slot.row.unit) + 1);
        }
        units
    }

    /// Adds an alternative.
    pub(crate) fn push(&mut self, rows: &[Row]) -> Result<(), OutOfMemory>
        requires { IsAlternative rows.now }
        ensures interval { self.new.interval ≡ self.old.interval }
        ensures pushed { OnOk result (self.new.alternatives ≡ self.old.alternatives ++ rows.now ∷ []) }
        ensures err { OnErr result (self.new.alternatives ≡ self.old.alternatives) }
    {
        let start = self.slots.len();
        push_slots(&mut self.slots, rows, self.ii)?;
        let end = self.slots.len();
        let marks = marks_of(&self.slots[start..end]);
        self.spans.push(Span { start, end, marks })?;
        Ok(())
    }
}

/// Prepares rows and adds them to the slots.
fn push_slots(slots: &mut Vec<Slot>, rows: &[Row], ii: usize) -> Result<(), OutOfMemory>
    requires some { 0 < ii }
    requires few { ii ≤ MAX_INTERVAL }
    requires units { All (λ r. r.unit < MAX_UNITS) rows.now }
    requires slots { All (IsSlot ii) slots.old.items }
    ensures slots { All (IsSlot ii) slots.new.items }
    ensures kept { take (length slots.old.items) slots.new.items ≡ slots.old.items }
    ensures added { OnOk result (rows_in (drop (length slots.old.items) slots.new.items) ≡ rows.now) }
{
    for row in rows {
        slots.push(Slot::new(*row, ii))?;
    }
    Ok(())
}

/// Prepares slots for another interval.
fn reset_slots(slots: &mut [Slot], ii: usize)
    requires some { 0 < ii }
    requires few { ii ≤ MAX_INTERVAL }
    ensures { slots.new ≡ map (slot_at ii) slots.old }
{
    for slot in slots.iter_mut() {
        slot.reset(ii);
    }
}
