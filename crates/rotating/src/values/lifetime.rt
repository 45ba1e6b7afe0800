//! How long values live.

ghost use Rattle.std.specs.Prelude.{◌≡◌, ◌<◌, ◌≤◌, ◌+◌, ◌*◌, [], max, length, map, take, IfOk, if◌then◌else◌, vec_len, vec_capacity};
ghost use Rattle.unit_bound.specs.Units.{greatest_of};
ghost use Rattle.loop_schedules.specs.Schedules.{IsSchedule, stages_of};
ghost use Rattle.overlap.specs.Lifetimes.{carried, first_cycle, is_out, landing_of, last_landing, lifetime_of, lifetimes_of, read_at, uses_of};

use crate::values::uses::fill_uses;
use loop_schedules::Schedule;
use machine_data::OutOfMemory;
use overlap::Lifetime;
use std::alloc::Global;

/// The cycle in which the last result of iteration 0 has landed, in cycles from the beginning of the iteration: how long one
/// iteration takes.
pub fn last_landing(schedule: &Schedule) -> u64
    ensures { result ≡ last_landing schedule.now }
{
    let edges = schedule.prepared().edges();
    let mut greatest = 0;
    for op in 0..edges.operations() {
        greatest = greatest.max(schedule.time(op) + u64::from(edges.latency(op)));
    }
    greatest
}

/// The cycle in which the value of iteration 0 lands.
fn landing_of(schedule: &Schedule, value: u8) -> u64
    requires there { value < length schedule.now.problem.loop.statements }
    ensures value { result ≡ landing_of schedule.now value }
    ensures few { result ≤ 1048640 }
    ensures well_formed { IsSchedule schedule.now }
{
    let edges = schedule.prepared().edges();
    schedule.time(value as usize) + u64::from(edges.latency(value as usize))
}

/// The end of the last stage, or the last landing where that is later.
fn end_of(schedule: &Schedule) -> u32
    ensures { result ≡ max (schedule.now.ii * stages_of schedule.now) (last_landing schedule.now) }
{
    let ii = schedule.ii();
    let stages = schedule.stages();
    (ii * stages).max(last_landing(schedule)) as u32
}

/// The first cycle of a value that lands in the cycle `landing` and is carried on for `farthest`
/// iterations.
fn first_cycle(schedule: &Schedule, value: u8, farthest: u32, landing: u64) -> u64
    requires farthest { farthest ≡ carried schedule.now.problem.loop value }
    requires landing { landing ≡ landing_of schedule.now value }
    ensures { result ≡ first_cycle schedule.now value }
{
    if farthest > 0 {
        landing.min(schedule.ii())
    } else {
        landing
    }
}

/// The lifetime of a value that is carried on for `farthest` iterations, and is last read or needed in
/// the cycle `last`.
fn lifetime_of(schedule: &Schedule, value: u8, farthest: u32, last: u32) -> Lifetime
    requires there { value < length schedule.now.problem.loop.statements }
    requires farthest { farthest ≡ carried schedule.now.problem.loop value }
    requires last { last ≡ max (greatest_of (map (read_at schedule.now) (uses_of schedule.now.problem.loop value))) (if is_out schedule.now.problem.loop value then max (schedule.now.ii * stages_of schedule.now) (last_landing schedule.now) else 0) }
    ensures { result ≡ lifetime_of schedule.now value }
{
    let landing = landing_of(schedule, value);
    Lifetime {
        operation: value,
        first: first_cycle(schedule, value, farthest, landing),
        last: landing.max(u64::from(last)),
    }
}

/// Writes the lifetimes in iteration 0, in text order, and answers how many there are.
pub(crate) fn fill_lifetimes(schedule: &Schedule, lives: &mut [Lifetime]) -> usize
    requires { length lives.old ≡ 128 }
    ensures few { result ≤ 128 }
    ensures long { length lives.new ≡ 128 }
    ensures exact { take result lives.new ≡ lifetimes_of schedule.now }
{
    let mut carried = [0; 256];
    let mut lasts = [0; 256];
    let end = end_of(schedule);
    fill_uses(schedule, end, &mut carried, &mut lasts);
    let statements = schedule.prepared().innermost().statements();
    let mut count = 0;
    for op in 0..statements.len() {
        if statements[op].name.is_some() {
            lives[count] = lifetime_of(schedule, op as u8, carried[op], lasts[op]);
            count += 1;
        }
    }
    count
}

/// Adds the lifetimes in iteration 0, in text order.
fn push_lifetimes(schedule: &Schedule, list: &mut Vec<Lifetime>)
    requires none { vec_len list.old ≡ 0 }
    requires empty { list.old.items ≡ [] }
    requires room { length schedule.now.problem.loop.statements ≤ vec_capacity list.old }
    ensures { list.new.items ≡ lifetimes_of schedule.now }
{
    let mut carried = [0; 256];
    let mut lasts = [0; 256];
    fill_uses(schedule, end_of(schedule), &mut carried, &mut lasts);
    let statements = schedule.prepared().innermost().statements();
    for value in 0..statements.len() {
        if statements[value].name.is_some() {
            list.push_reserved(lifetime_of(schedule, value as u8, carried[value], lasts[value]));
        }
    }
}

/// When each value of a schedule lives, in text order.
///
/// A value lives from the cycle in which it lands, and where it is carried on to later iterations at
/// the latest from the cycle `ii` on, to the last cycle in which it is read, or the one in which it
/// lands where it never is. A value that is live at the end lives at least until the last stage of
/// iteration 0 has ended and its last write has landed.
///
/// # Errors
/// [`OutOfMemory`] where memory ran out.
pub fn lifetimes(alloc: Global, schedule: &Schedule) -> Result<Vec<Lifetime>, OutOfMemory>
    ensures exact { IfOk result (λ v. v.items ≡ lifetimes_of schedule.now) }
{
    let count = schedule.prepared().operations();
    let mut list = Vec::with_capacity(alloc, count)?;
    push_lifetimes(schedule, &mut list);
    Ok(list)
}
