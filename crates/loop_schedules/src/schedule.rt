//! Modulo schedules.

ghost use Rattle.std.specs.Prelude.{◌≡◌, ℕ, ◌≤◌, ◌<◌, ◌*◌, [], length, slice_index, MatchOption, IfOk};
ghost use Rattle.std.specs.List.{slice_index_or};
ghost use Rattle.loop_schedules.specs.Problems.{without_loop};
ghost use Rattle.loop_schedules.specs.Schedules.{ScheduleData, IsSchedule, stages_of, as_listed};
ghost use Rattle.machine_data.specs.declared.limits.TheConstants.{MAX_INTERVAL};

use crate::prepared::Prepared;
use machine_data::OutOfMemory;
use std::alloc::Global;
use std::marker::Model;

/// A lawful modulo schedule of a prepared loop, of 1 to 64 stages: when the operations of an iteration
/// are issued, counted from its beginning, and by which of their alternatives. The next iteration begins
/// an interval later. It keeps each dependence, and no two rows take one slot of the modulo reservation
/// table. Contracts see the loop, the interval, the times and the alternatives.
#[derive(Drop)]
pub struct Schedule<'a> {
    prepared: &'a Prepared,
    schedule: schedules::Schedule<'a>,
}

impl<'a> Model for Schedule<'a> {
    ghost use Rattle.std.specs.Prelude.{◌≡◌};
    ghost use Rattle.loop_schedules.specs.Problems.{without_loop};
    ghost use Rattle.loop_schedules.specs.Schedules.{ScheduleData, IsSchedule};

    ghost Value = { ScheduleData };

    ghost view = { λ s. record { problem = s.prepared.now; ii = s.schedule.ii; times = s.schedule.times; choices = s.schedule.choices } };

    ghost invariant = { λ s. IsSchedule (record { problem = s.prepared.now; ii = s.schedule.ii; times = s.schedule.times; choices = s.schedule.choices })
        × (s.schedule.problem ≡ without_loop s.prepared.now) };
}

impl<'a> Schedule<'a> {
    /// The schedule of a loop that a schedule of its problem is.
    pub fn of_loop(prepared: &'a Prepared, schedule: schedules::Schedule<'a>) -> Schedule<'a>
        requires { schedule.problem ≡ without_loop prepared.now }
        ensures same { result ≡ record { problem = prepared.now; ii = schedule.entry.ii; times = schedule.entry.times; choices = schedule.entry.choices } }
        ensures well_formed { IsSchedule result }
    {
        prove!(prepared.operations() >= 1);
        prove!(schedule.ii() >= 1);
        Schedule { prepared, schedule }
    }

    /// The loop that it schedules.
    pub fn prepared(&self) -> &'a Prepared
        ensures value { result.now ≡ self.now.problem }
        ensures well_formed { IsSchedule self.now }
    {
        self.prepared
    }

    /// The initiation interval, in cycles, 1 to 16,384.
    pub fn ii(&self) -> u64
        ensures value { result ≡ self.now.ii }
        ensures well_formed { IsSchedule self.now }
    {
        self.schedule.ii()
    }

    /// The number of stages, 1 to 64: one more than the greatest stage of an operation, which is its time
    /// divided by the interval.
    pub fn stages(&self) -> u64
        ensures value { result ≡ stages_of self.now }
        ensures some { 1 ≤ result }
        ensures few { result ≤ 64 }
        ensures well_formed { IsSchedule self.now }
    {
        self.schedule.stages()
    }

    /// When an operation is issued, in cycles from the beginning of its iteration; less than 64
    /// intervals.
    pub fn time(&self, op: usize) -> u64
        requires { op < length self.now.problem.operations }
        ensures value { result ≡ slice_index self.now.times op }
        ensures below { result < 64 * self.now.ii }
        ensures well_formed { IsSchedule self.now }
    {
        self.schedule.time(op)
    }

    /// By which of its alternatives an operation is issued, by its number, from 0.
    pub fn alternative(&self, op: usize) -> usize
        requires { op < length self.now.problem.operations }
        ensures value { result ≡ slice_index self.now.choices op }
        ensures there { result < length (slice_index_or self.now.problem.operations op []) }
        ensures well_formed { IsSchedule self.now }
    {
        self.schedule.alternative(op)
    }

    /// The schedule at an interval of 1 to 16,384 cycles that a list of times and alternatives gives, one
    /// for each operation in text order. `None` exactly where the list is no schedule: where it is too
    /// long or too short, an alternative is not there, a dependence or a unit is not kept, or a stage is 64
    /// or more.
    ///
    /// # Errors
    /// [`OutOfMemory`] where memory ran out.
    pub fn check(
        alloc: Global,
        prepared: &'a Prepared,
        ii: u64,
        places: &[(u64, usize)],
    ) -> Result<Option<Schedule<'a>>, OutOfMemory>
        requires some { 1 ≤ ii }
        requires limit { ii ≤ MAX_INTERVAL }
        ensures exact { IfOk result (λ found. MatchOption found (IsSchedule (as_listed prepared.now ii places.now) → ⊥)
            (λ s. IsSchedule s × (s ≡ as_listed prepared.now ii places.now))) }
    {
        match schedules::Schedule::check(alloc, prepared.problem(), ii, places)? {
            Some(schedule) => Ok(Some(Schedule::of_loop(prepared, schedule))),
            None => Ok(None),
        }
    }
}
