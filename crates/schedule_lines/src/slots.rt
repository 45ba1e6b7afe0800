//! The texts in the slots of a schedule.

ghost use Rattle.std.specs.Prelude.{◌≡◌, ◌<◌, length, IfOk};
ghost use Rattle.machine_data.specs.declared.limits.TheConstants.{MAX_UNITS};
ghost use Rattle.schedule_lines.specs.SlotTexts.{label_of, slot_text};
ghost use Rattle.schedule_lines.specs.inner.Labels.{labels_of, texts_in};

use figures::Takers;
use graph_text::push_name;
use loop_schedules::Schedule;
use machine_data::OutOfMemory;
use std::alloc::Global;
use std::marker::Model;
use writing::push_told;

/// The text in each slot of a schedule. Labels are made once for each operation, not for each slot. Contracts see the
/// schedule.
#[derive(Drop)]
pub(crate) struct Slots<'s, 'a> {
    schedule: &'s Schedule<'a>,
    takers: Takers<'s, 'a>,
    /// The name and the stage of each operation.
    labels: Vec<Vec<u8>>,
}

impl<'s, 'a> Model for Slots<'s, 'a> {
    ghost use Rattle.std.specs.Prelude.{◌≡◌};
    ghost use Rattle.loop_schedules.specs.Schedules.{ScheduleData};
    ghost use Rattle.schedule_lines.specs.inner.Labels.{labels_of, texts_in};

    ghost Value = { ScheduleData };

    ghost view = { λ s. s.schedule.now };

    ghost invariant = { λ s. (s.takers ≡ s.schedule.now) × (texts_in s.labels.items ≡ labels_of s.schedule.now) };
}

/// The name of an operation and its stage.
fn label_of(alloc: Global, schedule: &Schedule, op: usize) -> Result<Vec<u8>, OutOfMemory>
    requires { op < length schedule.now.problem.operations }
    ensures { IfOk result (λ text. text.items ≡ label_of schedule.now op) }
{
    let mut text = Vec::new(alloc);
    push_name(&mut text, schedule.prepared().innermost(), op as u8)?;
    push_told(&mut text, "/", schedule.time(op) / schedule.ii())?;
    Ok(text)
}

/// The labels of all operations.
fn labels_of(alloc: Global, schedule: &Schedule) -> Result<Vec<Vec<u8>>, OutOfMemory>
    ensures { IfOk result (λ labels. texts_in labels.items ≡ labels_of schedule.now) }
{
    let mut labels = Vec::new(alloc);
    for op in 0..schedule.prepared().operations() {
        let label = label_of(alloc, schedule, op)?;
        labels.push(label)?;
    }
    Ok(labels)
}

impl<'s, 'a> Slots<'s, 'a> {
    /// The slots of a schedule.
    pub(crate) fn of(
        alloc: Global,
        schedule: &'s Schedule<'a>,
    ) -> Result<Slots<'s, 'a>, OutOfMemory>
        ensures { IfOk result (λ slots. slots ≡ schedule.now) }
    {
        let takers = Takers::of(alloc, schedule)?;
        let labels = labels_of(alloc, schedule)?;
        Ok(Slots {
            schedule,
            takers,
            labels,
        })
    }

    /// How many rows there are.
    pub(crate) fn rows(&self) -> u64
        ensures { result ≡ self.now.ii }
    {
        self.schedule.ii()
    }

    /// Which operation takes each slot.
    pub(crate) fn takers(&self) -> &Takers<'s, 'a>
        ensures { result.now ≡ self.now }
    {
        &self.takers
    }

    /// The text in a slot.
    pub(crate) fn text(&self, unit: u8, row: u64) -> &[u8]
        requires unit { unit < MAX_UNITS }
        requires row { row < self.now.ii }
        ensures { result.now ≡ slot_text self.now unit row }
    {
        match self.takers.taker(unit, row) {
            Some(op) => self.labels[op].as_slice(),
            None => b".",
        }
    }
}
