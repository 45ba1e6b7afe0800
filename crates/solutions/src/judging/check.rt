//! The check of solutions that are given.

ghost use Rattle.std.specs.Prelude.{◌≡◌, ◌<◌, ◌≤◌, ℕ, length, slice_get, slice_index, Some, IfOk, IsTrue, MatchOption, MatchResult, ◌↔◌};
ghost use Rattle.std.specs.List.{All};
ghost use Rattle.problems.specs.Drafts.{IsFile};
ghost use Rattle.registers.specs.Residues.{IsLifeSpan};
ghost use Rattle.solutions.specs.inner.Judging.{AreApart, IsApart, IsWrong, MeetsFirst, Meets};
ghost use Rattle.solutions.specs.Breaks.{AreRight, IsFirstBroken};
ghost use Rattle.solutions.specs.Solutions.{IsLawfulSolution, IsNumberIn, listed, files_of, lives_at};

use crate::judging::broken::Broken;
use crate::solution::Solution;
use crate::values::files::{gather, value_at};
use crate::values::lives::{files, lives_at, plain};
use machine_data::OutOfMemory;
use machine_data::limits::{MAX_INTERVAL, MAX_VALUES};
use problems::{Draft, File, Problem};
use registers::{Lifetime, first_meeting};
use schedules::Schedule;
use std::alloc::Global;

impl<'a> Solution<'a> {
    /// The solution at an interval that a list of places, an issue time and an alternative for each operation, and one of
    /// numbers, one for each value, give. The numbers of values of unallotted files are 0. Any lists may be given: where they
    /// are no solution, it tells what they break first.
    ///
    /// # Errors
    /// Memory ran out.
    pub fn check(
        alloc: Global,
        problem: &'a Problem,
        ii: u64,
        places: &[(u64, usize)],
        numbers: &[usize],
    ) -> Result<Result<Solution<'a>, Broken>, OutOfMemory>
        ensures exact { IfOk result (λ found. MatchResult found
            (λ s. IsLawfulSolution s × (s ≡ listed problem.now ii places.now numbers.now))
            (IsFirstBroken problem.now ii places.now numbers.now)) }
    {
        if let Some(broken) = first_wrong(problem.draft(), ii, numbers) {
            return Ok(Err(broken));
        }
        match Schedule::judge(alloc, problem.scheduling(), ii, places)? {
            Err(breach) => Ok(Err(Broken::Schedule(breach))),
            Ok(schedule) => in_registers(alloc, problem, schedule, numbers),
        }
    }
}

/// What is wrong with the interval or the numbers, before registers are looked at.
fn first_wrong(draft: &Draft, ii: u64, numbers: &[usize]) -> Option<Broken>
    ensures { MatchOption result (AreRight draft.now ii numbers.now) (IsWrong draft.now ii numbers.now) }
{
    if ii < 1 || ii > MAX_INTERVAL {
        return Some(Broken::Interval);
    }
    if numbers.len() != draft.values.len() {
        return Some(Broken::Numbers);
    }
    for value in 0..numbers.len() {
        if !is_number_in(&draft.files, draft.values[value].file, numbers[value]) {
            return Some(Broken::Number(value));
        }
    }
    None
}

/// Whether the number is that of a register of its file, where it is rotating, or 0 in an unallotted one.
fn is_number_in(kinds: &[File], file: usize, number: usize) -> bool
    ensures { IsTrue result ↔ IsNumberIn (slice_get kinds.now file) number }
{
    match kinds.get(file) {
        Some(File::Rotating(registers)) => number < *registers,
        Some(File::Unallotted) => number == 0,
        None => false,
    }
}

/// The solution of a schedule and numbers, where no two instances meet in a register.
fn in_registers<'a>(
    alloc: Global,
    problem: &'a Problem,
    schedule: Schedule<'a>,
    numbers: &[usize],
) -> Result<Result<Solution<'a>, Broken>, OutOfMemory>
    requires scheduled { schedule.problem ≡ problem.now.scheduling }
    requires right { AreRight problem.now.draft schedule.ii numbers.now }
    ensures { IfOk result (λ found. MatchResult found
        (λ s. IsLawfulSolution s × (s ≡ record { problem = problem.now; ii = schedule.entry.ii; times = schedule.entry.times; choices = schedule.entry.choices; numbers = numbers.now }))
        (MeetsFirst schedule.entry.ii problem.now.draft.files.items (files_of problem.now.draft) (lives_at problem.now.draft schedule.entry) numbers.now)) }
{
    let draft = problem.draft();
    let kinds = draft.files.as_slice();
    let ii = schedule.ii();
    let values = plain(alloc, draft.values.as_slice())?;
    let homes = files(alloc, draft.values.as_slice())?;
    let lives = lives_at(alloc, problem, values.as_slice(), &schedule)?;
    let found = first_meeting_of(ii, kinds, homes.as_slice(), lives.as_slice(), numbers);
    match found {
        Some(broken) => Ok(Err(broken)),
        None => {
            let numbers = Vec::from_slice(alloc, numbers)?;
            let solution = Solution::new(problem, schedule, numbers, lives);
            Ok(Ok(solution))
        }
    }
}

/// The first two values that meet in a register of the first file that has such values.
fn first_meeting_of(
    ii: u64,
    kinds: &[File],
    files: &[usize],
    lives: &[Lifetime],
    numbers: &[usize],
) -> Option<Broken>
    requires some { 1 ≤ ii }
    requires few { ii ≤ MAX_INTERVAL }
    requires kinds { All IsFile kinds.now }
    requires few_values { length files.now ≤ MAX_VALUES }
    requires lives { All IsLifeSpan lives.now }
    requires each_life { length lives.now ≡ length files.now }
    requires each { length numbers.now ≡ length files.now }
    requires right { (value : ℕ) → value < length files.now → IsNumberIn (slice_get kinds.now (slice_index files.now value)) (slice_index numbers.now value) }
    ensures { MatchOption result (AreApart ii kinds.now files.now lives.now numbers.now) (MeetsFirst ii kinds.now files.now lives.now numbers.now) }
{
    for file in 0..kinds.len() {
        if let Some(broken) = meeting_in(ii, kinds[file], file, files, lives, numbers) {
            return Some(broken);
        }
    }
    None
}

/// The first two values that meet in a register of a file of this kind, which is the one with that number.
fn meeting_in(
    ii: u64,
    kind: File,
    file: usize,
    files: &[usize],
    lives: &[Lifetime],
    numbers: &[usize],
) -> Option<Broken>
    requires some { 1 ≤ ii }
    requires few { ii ≤ MAX_INTERVAL }
    requires kind { IsFile kind }
    requires few_values { length files.now ≤ MAX_VALUES }
    requires lives { All IsLifeSpan lives.now }
    requires each_life { length lives.now ≡ length files.now }
    requires each { length numbers.now ≡ length files.now }
    requires right { (value : ℕ) → value < length files.now → slice_index files.now value ≡ file → IsNumberIn (Some kind) (slice_index numbers.now value) }
    ensures { MatchOption result (IsApart ii files.now lives.now numbers.now file kind) (Meets ii files.now lives.now numbers.now file kind) }
{
    let File::Rotating(registers) = kind else {
        return None;
    };
    let mut held = [Lifetime::default(); MAX_VALUES];
    let mut own = [0; MAX_VALUES];
    let count = gather(files, file, lives, &mut held);
    gather(files, file, numbers, &mut own);
    match first_meeting(ii, registers, &held[..count], &own[..count]) {
        None => None,
        Some(meeting) => Some(Broken::Registers {
            file,
            earlier: value_at(files, file, meeting.earlier),
            later: value_at(files, file, meeting.later),
            register: meeting.register,
            cycle: meeting.cycle,
        }),
    }
}
