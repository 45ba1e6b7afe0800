//! When the values of a schedule live.

ghost use Rattle.std.specs.Prelude.{◌≡◌, ◌*◌, ◌<◌, ◌≤◌, length, map, max, IfOk};
ghost use Rattle.std.specs.List.{All};
ghost use Rattle.machine_data.specs.declared.limits.TheConstants.{MAX_LATENCY};
ghost use Rattle.schedules.specs.Schedules.{stages_of};
ghost use Rattle.problems.specs.declared.draft.Value.{Value};
ghost use Rattle.problems.specs.Drafts.{plain_values};
ghost use Rattle.registers.specs.declared.value.Value.{Value as PlainValue};
ghost use Rattle.registers.specs.Values.{greatest_of, landing_of};
ghost use Rattle.solutions.specs.Solutions.{last_operation, lives_at};

use machine_data::OutOfMemory;
use problems::{Problem, Value};
use registers::{Lifetime, fill_lives};
use schedules::Schedule;
use std::alloc::Global;

/// The values as registers take them.
pub(crate) fn plain(alloc: Global, values: &[Value]) -> Result<Vec<registers::Value>, OutOfMemory>
    ensures { IfOk result (λ v. v.items ≡ map (λ (value : Value). record { maker = value.maker; lands = value.lands; out = value.out }) values.now) }
{
    values
        .iter()
        .map(|value| registers::Value {
            maker: value.maker,
            lands: value.lands,
            out: value.out,
        })
        .collect(alloc)
}

/// The file of each value.
pub(crate) fn files(alloc: Global, values: &[Value]) -> Result<Vec<usize>, OutOfMemory>
    ensures { IfOk result (λ v. v.items ≡ map (λ (value : Value). value.file) values.now) }
{
    values.iter().map(|value| value.file).collect(alloc)
}

/// Writes the issue time of each operation in iteration 0.
fn fill_times(schedule: &Schedule, times: &mut [u64])
    requires { length times.old ≡ length schedule.now.problem.operations }
    ensures { times.new ≡ schedule.now.times }
{
    for op in 0..schedule.problem().operations() {
        times[op] = schedule.time(op);
    }
}

/// The issue time of each operation in iteration 0.
fn times_of(alloc: Global, schedule: &Schedule) -> Result<Vec<u64>, OutOfMemory>
    ensures { IfOk result (λ times. times.items ≡ schedule.now.times) }
{
    let mut times = vec![in alloc; 0; schedule.problem().operations()]?;
    fill_times(schedule, &mut times);
    Ok(times)
}

/// The cycle in which the last operation of iteration 0 has landed.
fn last_operation(schedule: &Schedule) -> u64
    ensures { result ≡ last_operation schedule.now }
{
    let edges = schedule.problem().edges();
    let mut greatest = 0;
    for op in 0..schedule.problem().operations() {
        greatest = greatest.max(schedule.time(op) + u64::from(edges.latency(op)));
    }
    greatest
}

/// The cycle in which the last value of iteration 0 lands.
fn last_value(times: &[u64], values: &[registers::Value]) -> u64
    requires times { All (λ time. time ≤ 1048576) times.now }
    requires values { All (λ (value : PlainValue). (value.maker < length times.now) × (value.lands ≤ MAX_LATENCY)) values.now }
    ensures { result ≡ greatest_of (map (landing_of times.now) values.now) }
{
    let mut greatest = 0;
    for value in values {
        greatest = greatest.max(times[value.maker] + value.lands);
    }
    greatest
}

/// The cycle up to which values that are live at the end last.
fn end_at(schedule: &Schedule, times: &[u64], values: &[registers::Value]) -> u64
    requires times { times.now ≡ schedule.now.times }
    requires values { All (λ (value : PlainValue). (value.maker < length times.now) × (value.lands ≤ MAX_LATENCY)) values.now }
    ensures { result ≡ max (schedule.now.ii * stages_of schedule.now) (max (last_operation schedule.now) (greatest_of (map (landing_of times.now) values.now))) }
{
    let stages = schedule.ii() * schedule.stages();
    stages
        .max(last_operation(schedule))
        .max(last_value(times, values))
}

/// Writes when each value lives in iteration 0. `times` has the issue time of each operation, and `values` are those of the
/// problem, as registers take them.
fn fill_lives_at(
    problem: &Problem,
    schedule: &Schedule,
    times: &[u64],
    values: &[registers::Value],
    lives: &mut [Lifetime],
)
    requires scheduled { schedule.now.problem ≡ problem.now.scheduling }
    requires times { times.now ≡ schedule.now.times }
    requires values { values.now ≡ plain_values problem.now.draft }
    requires room { length lives.old ≡ length values.now }
    ensures { lives.new ≡ lives_at problem.now.draft schedule.now }
{
    let ii = schedule.ii();
    let draft = problem.draft();
    let reads = draft.reads.as_slice();
    let end = end_at(schedule, times, values);
    fill_lives(ii, times, end, values, reads, lives);
}

/// When each value lives in iteration 0, in cycles. `values` are those of the problem, as registers take them.
pub(crate) fn lives_at(
    alloc: Global,
    problem: &Problem,
    values: &[registers::Value],
    schedule: &Schedule,
) -> Result<Vec<Lifetime>, OutOfMemory>
    requires scheduled { schedule.now.problem ≡ problem.now.scheduling }
    requires values { values.now ≡ plain_values problem.now.draft }
    ensures { IfOk result (λ lives. lives.items ≡ lives_at problem.now.draft schedule.now) }
{
    let times = times_of(alloc, schedule)?;
    let mut lives = vec![in alloc; Lifetime::default(); values.len()]?;
    fill_lives_at(problem, schedule, &times, values, &mut lives);
    Ok(lives)
}
