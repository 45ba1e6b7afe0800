//! The end of an attempt.

ghost use Rattle.std.specs.Prelude.{◌≡◌, ◌/◌, ℕ, ◌<◌, ◌≤◌, length, replicate, None, Some, IfOk, MatchOption, slice_index};
ghost use Rattle.std.specs.Bool.{OnTrue, OnFalse};
ghost use Rattle.std.specs.List.{All};
ghost use Rattle.mrt.specs.Placements.{placement_of};
ghost use Rattle.modulo.specs.Attempts.{IsBlocked};
ghost use Rattle.modulo.specs.inner.Endings.{EndsAs};
ghost use Rattle.schedules.specs.Problems.{ProblemData, mii_of};
ghost use Rattle.modulo.specs.Scheduling.{Stops};
ghost use Rattle.machine_data.specs.declared.limits.TheConstants.{MAX_BUDGET, MAX_INTERVAL};

use crate::problem::sound::find_sound;
use crate::stepping::progress::Progress;
use crate::stepping::steps::{run, start};
use machine_data::OutOfMemory;
use machine_data::limits::MAX_STAGES;
use mrt::ModuloTable;
use schedules::Problem;
use std::alloc::Global;

/// How an attempt ends.
#[derive(Drop)]
pub(crate) enum End {
    /// Nothing was placed: the first operation all of whose alternatives collide with themselves.
    Blocked(usize),
    /// The budget is used up, and some operation is not placed.
    Short(Progress),
    /// When and by which alternative each operation is issued.
    Full(Vec<u64>, Vec<usize>),
}

/// Makes an attempt up to its end, over a table of the problem's operations with nothing placed. Once all memory is
/// there, operations are placed without taking more.
pub(crate) fn end_on<T: ModuloTable>(
    alloc: Global,
    problem: &Problem,
    table: &mut T,
    budget: u64,
) -> Result<End, OutOfMemory>
    requires operations { T.operations table.old ≡ problem.now.operations }
    requires empty { T.placed table.old ≡ replicate (length problem.now.operations) None }
    requires from_mii { mii_of problem.now ≤ T.interval table.old }
    requires limit { T.interval table.old ≤ MAX_INTERVAL }
    requires budget { budget ≤ MAX_BUDGET }
    ensures exact { IfOk result (EndsAs problem.now (T.interval table.old) budget) }
    ensures operations { T.operations table.new ≡ T.operations table.old }
{
    let mut sound = vec![in alloc; 0; problem.operations()]?;
    if let Some(op) = find_sound(table, &mut sound) {
        return Ok(End::Blocked(op));
    }
    let mut progress = start(alloc, problem, table.ii())?;
    let times = vec![in alloc; 0; problem.operations()]?;
    let choices = vec![in alloc; 0; problem.operations()]?;
    run(problem, table, &mut progress, &sound, budget);
    Ok(end_at(progress, times, choices))
}

/// How an attempt ends that places no more operations; `times` and `choices` have room for one entry for
/// each operation.
fn end_at(progress: Progress, mut times: Vec<u64>, mut choices: Vec<usize>) -> End
    requires each_time { length times.items ≡ length progress.state.placed }
    requires each_choice { length choices.items ≡ length progress.state.placed }
    ensures { (problem : ProblemData) (ii budget : ℕ) → length progress.state.placed ≡ length problem.operations → Stops problem ii budget progress.state
        → (IsBlocked problem ii → ⊥) → EndsAs problem ii budget result }
{
    if read_off(&progress, &mut times, &mut choices) {
        End::Full(times, choices)
    } else {
        End::Short(progress)
    }
}

/// Writes when and by which alternative each operation is issued, and tells whether all are placed.
pub(crate) fn read_off(progress: &Progress, times: &mut [u64], choices: &mut [usize]) -> bool
    requires each_time { length times.old ≡ length progress.now.state.placed }
    requires each_choice { length choices.old ≡ length progress.now.state.placed }
    ensures all { OnTrue result ((op : ℕ) → op < length progress.now.state.placed
        → placement_of progress.now.state.placed op ≡ Some (record { time = slice_index times.new op; alternative = slice_index choices.new op })) }
    ensures missing { OnFalse result ((op : ℕ) × (op < length progress.now.state.placed) × (placement_of progress.now.state.placed op ≡ None)) }
{
    for op in 0..times.len() {
        match progress.placement(op) {
            Some((time, choice)) => {
                times[op] = time;
                choices[op] = choice;
            }
            None => return false,
        }
    }
    true
}

/// The first of these times that is in stage 64 or later.
pub(crate) fn first_late(times: &[u64], ii: u64) -> Option<usize>
    requires { 0 < ii }
    ensures { MatchOption result (All (λ time. time / ii < MAX_STAGES) times.now)
        (λ op. (op < length times.now) × (MAX_STAGES ≤ slice_index times.now op / ii) × ((sooner : ℕ) → sooner < op → slice_index times.now sooner / ii < MAX_STAGES)) }
{
    for (op, time) in times.iter().enumerate() {
        if *time / ii >= MAX_STAGES {
            return Some(op);
        }
    }
    None
}
