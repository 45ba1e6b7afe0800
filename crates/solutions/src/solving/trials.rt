//! Intervals of one problem, tried one after another.

ghost use Rattle.std.specs.Prelude.{◌≡◌, ◌<◌, ◌≤◌, length, replicate, None, IfOk};
ghost use Rattle.machine_data.specs.declared.limits.TheConstants.{MAX_BUDGET, MAX_INTERVAL};
ghost use Rattle.schedules.specs.Problems.{budget_of};
ghost use Rattle.problems.specs.Drafts.{plain_values};
ghost use Rattle.solutions.specs.Trying.{IsMet, IsTried};
ghost use Rattle.solutions.specs.Outcomes.{IsPlacedAs, first_of, last_of};
ghost use Rattle.solutions.specs.Solutions.{files_of};

use crate::solution::Solution;
use crate::solving::outcome::Cause;
use crate::solving::tried::{Failure, Tried};
use crate::values::found::find_numbers;
use crate::values::lives::{files, lives_at, plain};
use crate::values::numbers::fill_numbers;
use machine_data::OutOfMemory;
use machine_data::limits::MAX_STATEMENTS;
use modulo::{Answer, Try, answer_on, attempt_on};
use mrt::{DefaultTable, ModuloTable};
use problems::Problem;
use schedules::Schedule;
use std::alloc::Global;
use std::marker::Model;

/// Tries intervals of a problem one after another, each over the reservation table of the one before it, so that
/// alternatives are prepared once. Contracts see the problem.
#[derive(Drop)]
pub struct Trials<'a> {
    problem: &'a Problem,
    /// The values as registers take them.
    values: Vec<registers::Value>,
    /// The file of each value.
    files: Vec<usize>,
    /// The table of the last interval that was tried.
    table: Option<DefaultTable>,
}

impl<'a> Model for Trials<'a> {
    ghost use Rattle.std.specs.Prelude.{◌≡◌, IfSome};
    ghost use Rattle.problems.specs.Drafts.{plain_values};
    ghost use Rattle.problems.specs.Problems.{ProblemData};
    ghost use Rattle.solutions.specs.Solutions.{files_of};

    ghost Value = { ProblemData };

    ghost view = { λ t. t.problem.now };

    ghost invariant = { λ t. (t.values.items ≡ plain_values t.problem.now.draft) × (t.files.items ≡ files_of t.problem.now.draft)
        × IfSome t.table (λ table. table.operations ≡ t.problem.now.scheduling.operations) };
}

impl<'a> Trials<'a> {
    /// No interval of this problem is tried yet.
    ///
    /// # Errors
    /// Memory ran out.
    pub fn of(alloc: Global, problem: &'a Problem) -> Result<Trials<'a>, OutOfMemory>
        ensures { IfOk result (λ trials. trials ≡ problem.now) }
    {
        let values = plain(alloc, &problem.draft().values)?;
        let files = files(alloc, &problem.draft().values)?;
        Ok(Trials {
            problem,
            values,
            files,
            table: None,
        })
    }

    /// What the problem gives at an interval, in cycles, from the greater lower bound up to the last one that its ceiling allows: a
    /// solution, or why it gives none. It takes more memory for a failure just where that is a list of operations that are not placed.
    ///
    /// # Errors
    /// Memory ran out. This says nothing of the problem.
    pub fn try_told(&mut self, alloc: Global, ii: u64) -> Result<Tried<'a>, OutOfMemory>
        requires from_first { first_of self.old ≤ ii }
        requires to_last { ii ≤ last_of self.old }
        ensures same { self.new ≡ self.old }
        ensures exact { IfOk result (IsTried self.old ii) }
    {
        let mut table = self.table_at(alloc, ii)?;
        let scheduling = self.problem.scheduling();
        let answer = answer_on(alloc, scheduling, &mut table, budget(scheduling));
        self.table = Some(table);
        match answer? {
            Answer::Placed(schedule) => {
                numbered(alloc, self.problem, &self.values, &self.files, schedule)
            }
            Answer::Failed(culprit) => Ok(Tried::Failed(Failure::by(culprit))),
        }
    }

    /// The solution that the problem gives at an interval, as [`Trials::try_told`] finds it, if it gives one. Where it gives none, this
    /// is known sooner, since it is not told why.
    ///
    /// # Errors
    /// Memory ran out. This says nothing of the problem.
    pub fn try_met(&mut self, alloc: Global, ii: u64) -> Result<Option<Solution<'a>>, OutOfMemory>
        requires from_first { first_of self.old ≤ ii }
        requires to_last { ii ≤ last_of self.old }
        ensures same { self.new ≡ self.old }
        ensures exact { IfOk result (IsMet self.old ii) }
    {
        let mut table = self.table_at(alloc, ii)?;
        let scheduling = self.problem.scheduling();
        let answer = attempt_on(alloc, scheduling, &mut table, budget(scheduling));
        self.table = Some(table);
        match answer? {
            Try::Placed(schedule) => {
                met_by(alloc, self.problem, &self.values, &self.files, schedule)
            }
            Try::Failed(_) => Ok(None),
        }
    }

    /// The problem's table at an interval, with nothing placed, made from the last one where there is one.
    fn table_at(&mut self, alloc: Global, ii: u64) -> Result<DefaultTable, OutOfMemory>
        requires from_first { first_of self.old ≤ ii }
        requires to_last { ii ≤ last_of self.old }
        ensures same { self.new ≡ self.old }
        ensures operations { IfOk result (λ table. table.operations ≡ self.old.scheduling.operations) }
        ensures empty { IfOk result (λ table. table.placed ≡ replicate (length self.old.scheduling.operations) None) }
        ensures interval { IfOk result (λ table. table.interval ≡ ii) }
    {
        prove!(self.problem.scheduling().mii() >= 1);
        match self.table.take() {
            Some(table) => table.at(ii),
            None => empty_table(alloc, self.problem, ii),
        }
    }
}

/// The table of a problem at an interval, with nothing placed.
fn empty_table(alloc: Global, problem: &Problem, ii: u64) -> Result<DefaultTable, OutOfMemory>
    requires some { 0 < ii }
    requires few { ii ≤ MAX_INTERVAL }
    ensures operations { IfOk result (λ table. table.operations ≡ problem.now.scheduling.operations) }
    ensures empty { IfOk result (λ table. table.placed ≡ replicate (length problem.now.scheduling.operations) None) }
    ensures interval { IfOk result (λ table. table.interval ≡ ii) }
{
    let (lists, numbers) = problem.tables();
    DefaultTable::of_kinds(alloc, lists, numbers, ii)
}

/// The solution of a schedule and the least numbers, where each value has one. `values` are those of the problem, as registers
/// take them, and `files` has the file of each.
fn numbered<'a>(
    alloc: Global,
    problem: &'a Problem,
    values: &[registers::Value],
    files: &[usize],
    schedule: Schedule<'a>,
) -> Result<Tried<'a>, OutOfMemory>
    requires placed { IsPlacedAs problem.now schedule.ii schedule }
    requires values { values.now ≡ plain_values problem.now.draft }
    requires files { files.now ≡ files_of problem.now.draft }
    ensures { IfOk result (IsTried problem.now schedule.entry.ii) }
{
    let draft = problem.draft();
    let kinds = draft.files.as_slice();
    let ii = schedule.ii();
    let lives = lives_at(alloc, problem, values, &schedule)?;
    let mut numbers = vec![in alloc; 0; values.len()]?;
    let found = fill_numbers(
        alloc,
        ii,
        kinds,
        files,
        lives.as_slice(),
        numbers.as_mut_slice(),
    )?;
    match found {
        Some((file, value)) => Ok(Tried::Failed(Failure {
            cause: Cause::Registers(file, value),
            culprit: None,
        })),
        None => {
            let solution = Solution::new(problem, schedule, numbers, lives);
            Ok(Tried::Met(solution))
        }
    }
}

/// The solution of a schedule and the least numbers, if each value has one. `values` are those of the problem, as registers take
/// them, and `files` has the file of each.
fn met_by<'a>(
    alloc: Global,
    problem: &'a Problem,
    values: &[registers::Value],
    files: &[usize],
    schedule: Schedule<'a>,
) -> Result<Option<Solution<'a>>, OutOfMemory>
    requires placed { IsPlacedAs problem.now schedule.ii schedule }
    requires values { values.now ≡ plain_values problem.now.draft }
    requires files { files.now ≡ files_of problem.now.draft }
    ensures { IfOk result (IsMet problem.now schedule.entry.ii) }
{
    let draft = problem.draft();
    let kinds = draft.files.as_slice();
    let ii = schedule.ii();
    let lives = lives_at(alloc, problem, values, &schedule)?;
    let mut numbers = vec![in alloc; 0; values.len()]?;
    let found = find_numbers(
        alloc,
        ii,
        kinds,
        files,
        lives.as_slice(),
        numbers.as_mut_slice(),
    )?;
    if found {
        let solution = Solution::new(problem, schedule, numbers, lives);
        Ok(Some(solution))
    } else {
        Ok(None)
    }
}

/// How many placements an attempt may make.
fn budget(scheduling: &schedules::Problem) -> u64
    ensures value { result ≡ budget_of scheduling.now }
    ensures few { result ≤ MAX_BUDGET }
{
    let operations = scheduling.operations() as u64;
    prove!(operations <= MAX_STATEMENTS as u64);
    scheduling.ratio() * operations
}
