//! Solutions of scheduling problems.

ghost use Rattle.std.specs.Prelude.{◌≡◌, ◌*◌, ◌<◌, ◌≤◌, [], length, slice_get, slice_index, Some};
ghost use Rattle.std.specs.List.{slice_index_or};
ghost use Rattle.machine_data.specs.declared.limits.TheConstants.{MAX_STAGES};
ghost use Rattle.schedules.specs.Schedules.{stages_of};
ghost use Rattle.solutions.specs.Solutions.{IsLawfulSolution, lives_at, lives_of_solution, schedule_of};

use problems::Problem;
use registers::Lifetime;
use schedules::Schedule;
use std::marker::Model;

/// A lawful solution of a scheduling problem: a modulo schedule, and for each value of a rotating file the number of the
/// register in which its instance of iteration 0 stands. The instance of iteration `j` stands in the register `number - j`,
/// modulo the file's registers, and no two instances ever stand in one register in one cycle. Contracts see the problem,
/// the interval, the times, the alternatives and the numbers.
#[derive(Drop)]
pub struct Solution<'a> {
    problem: &'a Problem,
    schedule: Schedule<'a>,
    numbers: Vec<usize>,
    lives: Vec<Lifetime>,
}

impl<'a> Model for Solution<'a> {
    ghost use Rattle.std.specs.Prelude.{◌≡◌};
    ghost use Rattle.solutions.specs.Solutions.{SolutionData, IsLawfulSolution, lives_of_solution};

    ghost Value = { SolutionData };

    ghost view = { λ s. record { problem = s.problem.now; ii = s.schedule.ii; times = s.schedule.times; choices = s.schedule.choices; numbers = s.numbers.items } };

    ghost invariant = { λ s. IsLawfulSolution (record { problem = s.problem.now; ii = s.schedule.ii; times = s.schedule.times; choices = s.schedule.choices; numbers = s.numbers.items })
        × (s.schedule.problem ≡ s.problem.now.scheduling)
        × (s.lives.items ≡ lives_of_solution (record { problem = s.problem.now; ii = s.schedule.ii; times = s.schedule.times; choices = s.schedule.choices; numbers = s.numbers.items })) };
}

impl<'a> Solution<'a> {
    /// The solution of this schedule and these numbers.
    pub(crate) fn new(
        problem: &'a Problem,
        schedule: Schedule<'a>,
        numbers: Vec<usize>,
        lives: Vec<Lifetime>,
    ) -> Solution<'a>
        requires lawful { IsLawfulSolution (record { problem = problem.now; ii = schedule.ii; times = schedule.times; choices = schedule.choices; numbers = numbers.items }) }
        requires scheduled { schedule.problem ≡ problem.now.scheduling }
        requires lives { lives.items ≡ lives_at problem.now.draft schedule }
        ensures { result ≡ record { problem = problem.now; ii = schedule.entry.ii; times = schedule.entry.times; choices = schedule.entry.choices; numbers = numbers.items } }
    {
        Solution {
            problem,
            schedule,
            numbers,
            lives,
        }
    }

    /// The problem that it solves.
    pub fn problem(&self) -> &'a Problem
        ensures value { result.now ≡ self.now.problem }
        ensures well_formed { IsLawfulSolution self.now }
    {
        self.problem
    }

    /// The initiation interval, in cycles, 1 to 16,384.
    pub fn ii(&self) -> u64
        ensures value { result ≡ self.now.ii }
        ensures well_formed { IsLawfulSolution self.now }
    {
        self.schedule.ii()
    }

    /// The number of stages, 1 to 64: one more than the greatest stage of an operation, which is its time divided by the
    /// interval.
    pub fn stages(&self) -> u64
        ensures value { result ≡ stages_of (schedule_of self.now) }
        ensures some { 1 ≤ result }
        ensures few { result ≤ MAX_STAGES }
        ensures well_formed { IsLawfulSolution self.now }
    {
        self.schedule.stages()
    }

    /// When an operation is issued, in cycles from the beginning of its iteration; less than 64 intervals.
    pub fn time(&self, op: usize) -> u64
        requires { op < length self.now.problem.scheduling.operations }
        ensures value { result ≡ slice_index self.now.times op }
        ensures below { result < MAX_STAGES * self.now.ii }
        ensures well_formed { IsLawfulSolution self.now }
    {
        self.schedule.time(op)
    }

    /// By which of its alternatives an operation is issued, by its number, from 0.
    pub fn alternative(&self, op: usize) -> usize
        requires { op < length self.now.problem.scheduling.operations }
        ensures value { result ≡ slice_index self.now.choices op }
        ensures there { result < length (slice_index_or self.now.problem.scheduling.operations op []) }
        ensures well_formed { IsLawfulSolution self.now }
    {
        self.schedule.alternative(op)
    }

    /// The number of a value: of one in a rotating file that of the register in which its instance of iteration 0 stands,
    /// and 0 of one in an unallotted file.
    pub fn number(&self, value: usize) -> usize
        requires { value < length self.now.problem.draft.values.items }
        ensures value { result ≡ slice_index self.now.numbers value }
        ensures well_formed { IsLawfulSolution self.now }
    {
        self.numbers[value]
    }

    /// When a value lives in iteration 0, in cycles.
    pub fn life(&self, value: usize) -> Lifetime
        requires { value < length self.now.problem.draft.values.items }
        ensures value { slice_get (lives_of_solution self.now) value ≡ Some result }
        ensures well_formed { IsLawfulSolution self.now }
    {
        self.lives[value]
    }

    /// When each value lives in iteration 0, in cycles.
    pub(crate) fn lives(&self) -> &[Lifetime]
        ensures value { result.now ≡ lives_of_solution self.now }
        ensures well_formed { IsLawfulSolution self.now }
    {
        self.lives.as_slice()
    }
}
