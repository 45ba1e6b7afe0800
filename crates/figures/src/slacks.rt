//! By how many cycles operations could be issued later.

ghost use Rattle.std.specs.Prelude.{◌≡◌, ◌<◌, ◌≤◌, ◌+◌, ◌*◌, pos, ◌+ℤ◌, [], length, slice_index, IfOk, vec_len, vec_capacity};
ghost use Rattle.figures.specs.Slacks.{AreSlacks, IsSlack};
ghost use Rattle.edges.specs.Schedules.{KeepsEdge};
ghost use Rattle.overlap.specs.Lifetimes.{last_landing};

use edges::Edge;
use loop_schedules::Schedule;
use machine_data::OutOfMemory;
use std::alloc::Global;

/// By how many cycles later than it is the operation that an edge comes from could be issued, for that edge alone.
fn spare(schedule: &Schedule, edge: Edge) -> u64
    requires from { edge.from < length schedule.now.problem.operations }
    requires to { edge.to < length schedule.now.problem.operations }
    requires kept { KeepsEdge schedule.now.ii schedule.now.times edge }
    ensures { (pos (slice_index schedule.now.times edge.from + result) +ℤ edge.delay) ≡ pos (slice_index schedule.now.times edge.to + schedule.now.ii * edge.distance) }
{
    let latest = schedule.time(edge.to as usize) + schedule.ii() * u64::from(edge.distance);
    let least = schedule.time(edge.from as usize) as i64 + i64::from(edge.delay);
    (latest as i64 - least) as u64
}

/// By how many cycles an operation could be issued later where an iteration takes so many cycles.
fn slack_of(schedule: &Schedule, op: usize, cycles: u64) -> u64
    requires there { op < length schedule.now.problem.operations }
    requires cycles { cycles ≡ last_landing schedule.now }
    ensures { IsSlack schedule.now op result }
{
    let edges = schedule.prepared().edges();
    let mut slack = cycles - (schedule.time(op) + u64::from(edges.latency(op)));
    let outgoing = edges.out_of(op);
    for edge in outgoing {
        if edge.to as usize != op {
            slack = slack.min(spare(schedule, *edge));
        }
    }
    slack
}

/// Adds the slack of each operation, in text order.
fn push_slacks(schedule: &Schedule, cycles: u64, list: &mut Vec<u64>)
    requires cycles { cycles ≡ last_landing schedule.now }
    requires none { vec_len list.old ≡ 0 }
    requires empty { list.old.items ≡ [] }
    requires room { length schedule.now.problem.operations ≤ vec_capacity list.old }
    ensures { AreSlacks schedule.now list.new.items }
{
    for op in 0..schedule.prepared().operations() {
        list.push_reserved(slack_of(schedule, op, cycles));
    }
}

/// The slack of each operation, in text order, where an iteration takes so many cycles.
pub(crate) fn slacks_of(
    alloc: Global,
    schedule: &Schedule,
    cycles: u64,
) -> Result<Vec<u64>, OutOfMemory>
    requires { cycles ≡ last_landing schedule.now }
    ensures { IfOk result (λ v. AreSlacks schedule.now v.items) }
{
    let mut list = Vec::with_capacity(alloc, schedule.prepared().operations())?;
    push_slacks(schedule, cycles, &mut list);
    Ok(list)
}
