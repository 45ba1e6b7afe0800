//! Modulo schedules.

ghost use Rattle.std.specs.Prelude.{◌≡◌, ℕ, ◌≤◌, ◌<◌, ◌*◌, [], length, map, slice_index, MatchOption, MatchResult, IfOk};
ghost use Rattle.std.specs.List.{slice_index_or};
ghost use Rattle.schedules.specs.Breaches.{IsFirstBreach};
ghost use Rattle.schedules.specs.Schedules.{ScheduleData, IsSchedule, stages_of, as_listed};
ghost use Rattle.machine_data.specs.declared.limits.TheConstants.{MAX_INTERVAL};

use crate::breach::Breach;
use crate::check::first_breach;
use crate::problem::Problem;
use crate::stages::count_stages;
use machine_data::OutOfMemory;
use std::alloc::Global;
use std::marker::Model;

/// A lawful modulo schedule of a problem, of 1 to 64 stages: when the operations of an iteration are
/// issued, counted from its beginning, and by which of their alternatives. The next iteration begins an
/// interval later. It keeps each edge, and no two rows take one slot of the modulo reservation table.
/// Contracts see the problem, the interval, the times and the alternatives.
#[derive(Drop)]
pub struct Schedule<'a> {
    problem: &'a Problem,
    ii: u64,
    stages: u64,
    times: Vec<u64>,
    choices: Vec<usize>,
}

impl<'a> Model for Schedule<'a> {
    ghost use Rattle.std.specs.Prelude.{◌≡◌};
    ghost use Rattle.schedules.specs.Schedules.{ScheduleData, IsSchedule, stages_of};

    ghost Value = { ScheduleData };

    ghost view = { λ s. record { problem = s.problem.now; ii = s.ii; times = s.times.items; choices = s.choices.items } };

    ghost invariant = { λ s. IsSchedule (record { problem = s.problem.now; ii = s.ii; times = s.times.items; choices = s.choices.items })
        × (s.stages ≡ stages_of (record { problem = s.problem.now; ii = s.ii; times = s.times.items; choices = s.choices.items })) };
}

impl<'a> Schedule<'a> {
    /// The schedule at an interval of 1 to 16,384 cycles with these times and alternatives, one for each operation in order.
    pub fn new(problem: &'a Problem, ii: u64, times: Vec<u64>, choices: Vec<usize>) -> Schedule<'a>
        requires { IsSchedule (record { problem = problem.now; ii = ii; times = times.items; choices = choices.items }) }
        ensures { result ≡ record { problem = problem.now; ii = ii; times = times.items; choices = choices.items } }
    {
        let stages = count_stages(&times, ii);
        Schedule {
            problem,
            ii,
            stages,
            times,
            choices,
        }
    }

    /// The problem that it solves.
    pub fn problem(&self) -> &'a Problem
        ensures value { result.now ≡ self.now.problem }
        ensures well_formed { IsSchedule self.now }
    {
        self.problem
    }

    /// The initiation interval, in cycles, 1 to 16,384.
    pub fn ii(&self) -> u64
        ensures value { result ≡ self.now.ii }
        ensures well_formed { IsSchedule self.now }
    {
        self.ii
    }

    /// The number of stages, 1 to 64: one more than the greatest stage of an operation, which is its time
    /// divided by the interval.
    pub fn stages(&self) -> u64
        ensures value { result ≡ stages_of self.now }
        ensures some { 1 ≤ result }
        ensures few { result ≤ 64 }
        ensures well_formed { IsSchedule self.now }
    {
        self.stages
    }

    /// When an operation is issued, in cycles from the beginning of its iteration; less than 64
    /// intervals.
    pub fn time(&self, op: usize) -> u64
        requires { op < length self.now.problem.operations }
        ensures value { result ≡ slice_index self.now.times op }
        ensures below { result < 64 * self.now.ii }
        ensures well_formed { IsSchedule self.now }
    {
        self.times[op]
    }

    /// By which of its alternatives an operation is issued, by its number, from 0.
    pub fn alternative(&self, op: usize) -> usize
        requires { op < length self.now.problem.operations }
        ensures value { result ≡ slice_index self.now.choices op }
        ensures there { result < length (slice_index_or self.now.problem.operations op []) }
        ensures well_formed { IsSchedule self.now }
    {
        self.choices[op]
    }

    /// The schedule at an interval of 1 to 16,384 cycles that a list of times and alternatives gives, one
    /// for each operation in order, or what the list breaks first: the count of places; then, by
    /// operation, a time or an alternative that is out of range; then a row that takes the slot of a row
    /// before it; then an edge; then the stage of an operation.
    ///
    /// # Errors
    /// [`OutOfMemory`] where memory ran out.
    pub fn judge(
        alloc: Global,
        problem: &'a Problem,
        ii: u64,
        places: &[(u64, usize)],
    ) -> Result<Result<Schedule<'a>, Breach>, OutOfMemory>
        requires some { 1 ≤ ii }
        requires limit { ii ≤ MAX_INTERVAL }
        ensures exact { IfOk result (λ found. MatchResult found
            (λ s. IsSchedule s × (s ≡ as_listed problem.now ii places.now))
            (IsFirstBreach problem.now ii places.now)) }
    {
        if let Some(breach) = first_breach(alloc, problem, ii, places)? {
            return Ok(Err(breach));
        }
        let times = times_of(alloc, places)?;
        let choices = choices_of(alloc, places)?;
        Ok(Ok(Schedule::new(problem, ii, times, choices)))
    }

    /// The schedule at an interval of 1 to 16,384 cycles that a list of times and alternatives gives, one
    /// for each operation in order. `None` exactly where the list is no schedule: where it is too long or
    /// too short, an alternative is not there, an edge or a unit is not kept, or a stage is 64 or more.
    /// [`Schedule::judge`] tells which.
    ///
    /// # Errors
    /// [`OutOfMemory`] where memory ran out.
    pub fn check(
        alloc: Global,
        problem: &'a Problem,
        ii: u64,
        places: &[(u64, usize)],
    ) -> Result<Option<Schedule<'a>>, OutOfMemory>
        requires some { 1 ≤ ii }
        requires limit { ii ≤ MAX_INTERVAL }
        ensures exact { IfOk result (λ found. MatchOption found (IsSchedule (as_listed problem.now ii places.now) → ⊥)
            (λ s. IsSchedule s × (s ≡ as_listed problem.now ii places.now))) }
    {
        Ok(Schedule::judge(alloc, problem, ii, places)?.ok())
    }
}

/// The times of a list.
fn times_of(alloc: Global, places: &[(u64, usize)]) -> Result<Vec<u64>, OutOfMemory>
    ensures { IfOk result (λ v. v.items ≡ map (λ (p : ℕ × ℕ). p.0) places.now) }
{
    places.iter().map(|place| place.0).collect(alloc)
}

/// The alternatives of a list.
fn choices_of(alloc: Global, places: &[(u64, usize)]) -> Result<Vec<usize>, OutOfMemory>
    ensures { IfOk result (λ v. v.items ≡ map (λ (p : ℕ × ℕ). p.1) places.now) }
{
    places.iter().map(|place| place.1).collect(alloc)
}
