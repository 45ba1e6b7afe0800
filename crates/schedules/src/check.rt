//! What a list of times and alternatives breaks first.

ghost use Rattle.std.specs.Prelude.{◌≡◌, ℕ, ◌+◌, ◌*◌, ◌/◌, ◌<◌, ◌≤◌, ◌^◌, pos, ◌+ℤ◌, length, take, replicate, slice_index, None, IfOk, MatchOption};
ghost use Rattle.std.specs.List.{All, list_any};
ghost use Rattle.machine_data.specs.declared.alternative.Row.{Row};
ghost use Rattle.machine_data.specs.Alternative.{rows_meet};
ghost use Rattle.edges.specs.Edges.{EdgeData};
ghost use Rattle.edges.specs.Schedules.{KeepsEdge, KeepsUnits};
ghost use Rattle.mrt.specs.Placements.{alternatives_of, rows_of, IsFree};
ghost use Rattle.schedules.specs.Breaches.{times_in, choices_in, AreInRange, IsFirstUnkept, IsFirstBreach};
ghost use Rattle.schedules.specs.inner.Listed.{IsTaken, IsFirstTaken};
ghost use Rattle.schedules.specs.Schedules.{IsSchedule, as_listed};

use crate::breach::Breach;
use crate::demands::demand;
use crate::problem::Problem;
use edges::Edge;
use machine_data::limits::{MAX_INTERVAL, MAX_STAGES};
use machine_data::{Alternatives, OutOfMemory, Row};
use mrt::{DefaultTable, ModuloTable};
use std::alloc::Global;

/// The cycle with which stage 64 begins at the longest interval.
const END: u64 = MAX_STAGES * MAX_INTERVAL;

/// What a list of times and alternatives breaks first. `None` exactly where it is a schedule.
pub(crate) fn first_breach(
    alloc: Global,
    problem: &Problem,
    ii: u64,
    places: &[(u64, usize)],
) -> Result<Option<Breach>, OutOfMemory>
    requires some { 1 ≤ ii }
    requires limit { ii ≤ MAX_INTERVAL }
    ensures { IfOk result (λ found. MatchOption found (IsSchedule (as_listed problem.now ii places.now)) (IsFirstBreach problem.now ii places.now)) }
{
    if let Some(breach) = out_of_range(problem, places) {
        return Ok(Some(breach));
    }
    if let Some(breach) = taken_slot(alloc, problem, ii, places)? {
        return Ok(Some(breach));
    }
    Ok(wrong_time(problem, ii, places))
}

/// The first number that is out of range, where there is a place for each operation.
fn out_of_range(problem: &Problem, places: &[(u64, usize)]) -> Option<Breach>
    ensures { MatchOption result (AreInRange problem.now.operations places.now) (λ breach. (ii : ℕ) → IsFirstBreach problem.now ii places.now breach) }
{
    let operations = problem.alternatives();
    if places.len() != operations.len() {
        return Some(Breach::Count);
    }
    for (op, place) in places.iter().enumerate() {
        if place.0 >= END {
            return Some(Breach::Time(op));
        }
        if place.1 >= operations[op].as_slice().len() {
            return Some(Breach::Alternative(op));
        }
    }
    None
}

/// The first row that takes the slot of a row before it.
fn taken_slot(
    alloc: Global,
    problem: &Problem,
    ii: u64,
    places: &[(u64, usize)],
) -> Result<Option<Breach>, OutOfMemory>
    requires some { 1 ≤ ii }
    requires limit { ii ≤ MAX_INTERVAL }
    requires places { AreInRange problem.now.operations places.now }
    ensures { IfOk result (λ found. MatchOption found (KeepsUnits ii problem.now.operations (times_in places.now) (choices_in places.now)) (IsFirstBreach problem.now ii places.now)) }
{
    let mut table = problem.table::<DefaultTable>(alloc, ii)?;
    Ok(taken_slot_on(&mut table, problem, places))
}

/// The first row that takes the slot of a row before it, by a table with nothing placed.
fn taken_slot_on<T: ModuloTable>(
    table: &mut T,
    problem: &Problem,
    places: &[(u64, usize)],
) -> Option<Breach>
    requires some { 1 ≤ T.interval table.old }
    requires operations { T.operations table.old ≡ problem.now.operations }
    requires empty { T.placed table.old ≡ replicate (length problem.now.operations) None }
    requires places { AreInRange problem.now.operations places.now }
    ensures { MatchOption result (KeepsUnits (T.interval table.old) problem.now.operations (times_in places.now) (choices_in places.now))
        (IsFirstBreach problem.now (T.interval table.old) places.now) }
{
    for (op, place) in places.iter().enumerate() {
        let (time, choice) = *place;
        if let Some(breach) = clash(table, problem.alternatives(), op, time, choice) {
            return Some(breach);
        }
        table.claim(op, time, choice);
    }
    None
}

/// The first row of an operation's alternative, issued at a time, that takes the slot of a row before it: of a placed
/// operation, or of the operation itself.
fn clash<T: ModuloTable>(
    table: &T,
    operations: &[Alternatives],
    op: usize,
    time: u64,
    alternative: usize,
) -> Option<Breach>
    requires some { 1 ≤ T.interval table.now }
    requires operations { T.operations table.now ≡ operations.now }
    requires there { op < length operations.now }
    requires alternative { alternative < length (alternatives_of operations.now op) }
    requires time { time < 2 ^ 32 }
    ensures { MatchOption result (IsFree (T.interval table.now) operations.now (T.placed table.now) op time alternative)
        (IsFirstTaken (T.interval table.now) operations.now (T.placed table.now) (rows_of operations.now op alternative) op time) }
{
    let rows = operations[op].as_slice()[alternative].rows();
    for (i, row) in rows.iter().enumerate() {
        if let Some(earlier) = taker(table, rows, op, time, alternative, i) {
            let residue = (time + u64::from(row.offset)) % table.ii();
            let unit = usize::from(row.unit);
            return Some(Breach::Slot {
                earlier,
                later: op,
                unit,
                residue,
            });
        }
    }
    None
}

/// The operation that has the slot of a row already: a placed one, or the row's own by a row before it.
fn taker<T: ModuloTable>(
    table: &T,
    rows: &[Row],
    op: usize,
    time: u64,
    alternative: usize,
    i: usize,
) -> Option<usize>
    requires some { 1 ≤ T.interval table.now }
    requires there { op < length (T.operations table.now) }
    requires alternative { alternative < length (alternatives_of (T.operations table.now) op) }
    requires rows { rows.now ≡ rows_of (T.operations table.now) op alternative }
    requires row { i < length rows.now }
    requires time { time < 2 ^ 32 }
    ensures { MatchOption result ((earlier : ℕ) → IsTaken (T.interval table.now) (T.operations table.now) (T.placed table.now) rows.now op time i earlier → ⊥)
        (IsTaken (T.interval table.now) (T.operations table.now) (T.placed table.now) rows.now op time i) }
{
    if let Some(holder) = table.holder(op, alternative, i, time) {
        return Some(holder);
    }
    if meets_any(&rows[i], &rows[..i], table.ii()) {
        Some(op)
    } else {
        None
    }
}

/// Whether a row takes the slot of one of some others, all issued at once.
fn meets_any(row: &Row, others: &[Row], ii: u64) -> bool
    requires { 1 ≤ ii }
    ensures { result ≡ list_any (λ s. rows_meet ii row.now 0 s 0) others.now }
{
    for other in others {
        if meet(row, other, ii) {
            return true;
        }
    }
    false
}

/// Whether two rows take one slot, issued at once.
fn meet(row: &Row, other: &Row, ii: u64) -> bool
    requires { 1 ≤ ii }
    ensures { result ≡ rows_meet ii row.now 0 other.now 0 }
{
    row.unit == other.unit && u64::from(row.offset) % ii == u64::from(other.offset) % ii
}

/// The first edge that is not kept, or else the first operation in stage 64 or later.
fn wrong_time(problem: &Problem, ii: u64, places: &[(u64, usize)]) -> Option<Breach>
    requires some { 1 ≤ ii }
    requires limit { ii ≤ MAX_INTERVAL }
    requires places { AreInRange problem.now.operations places.now }
    requires units { KeepsUnits ii problem.now.operations (times_in places.now) (choices_in places.now) }
    ensures { MatchOption result (IsSchedule (as_listed problem.now ii places.now)) (IsFirstBreach problem.now ii places.now) }
{
    if let Some((edge, early)) = unkept(problem.edges().all(), ii, places) {
        return Some(Breach::Edge(edge, early));
    }
    let op = late(ii, places)?;
    Some(Breach::Stage(op))
}

/// The first edge that the times do not keep, and by how many cycles.
fn unkept(edges: &[Edge], ii: u64, places: &[(u64, usize)]) -> Option<(Edge, u64)>
    requires ends { All (λ (e : EdgeData). (e.from < length places.now) × (e.to < length places.now)) edges.now }
    requires ii { ii ≤ MAX_INTERVAL }
    requires times { All (λ (p : ℕ × ℕ). p.0 < 2 ^ 32) places.now }
    ensures { MatchOption result (All (KeepsEdge ii (times_in places.now)) edges.now) (λ found. IsFirstUnkept ii (times_in places.now) edges.now found.0 found.1) }
{
    for edge in edges {
        let early = early_by(*edge, ii, places);
        if early > 0 {
            return Some((*edge, early));
        }
    }
    None
}

/// By how many cycles an edge's target is issued too early; 0 where the times keep the edge.
fn early_by(edge: Edge, ii: u64, places: &[(u64, usize)]) -> u64
    requires from { edge.from < length places.now }
    requires to { edge.to < length places.now }
    requires ii { ii ≤ MAX_INTERVAL }
    requires times { All (λ (p : ℕ × ℕ). p.0 < 2 ^ 32) places.now }
    ensures kept { result ≡ 0 → KeepsEdge ii (times_in places.now) edge }
    ensures early { 1 ≤ result → pos (slice_index (times_in places.now) edge.to + ii * edge.distance + result) ≡ (pos (slice_index (times_in places.now) edge.from) +ℤ edge.delay) }
{
    let from = places[edge.from as usize].0;
    let to = places[edge.to as usize].0;
    demand(from, edge, ii).saturating_sub(to)
}

/// The first operation in stage 64 or later.
fn late(ii: u64, places: &[(u64, usize)]) -> Option<usize>
    requires { 1 ≤ ii }
    ensures { MatchOption result (All (λ (p : ℕ × ℕ). p.0 / ii < MAX_STAGES) places.now)
        (λ op. (op < length places.now) × (MAX_STAGES ≤ slice_index (times_in places.now) op / ii) × ((sooner : ℕ) → sooner < op → slice_index (times_in places.now) sooner / ii < MAX_STAGES)) }
{
    for (op, place) in places.iter().enumerate() {
        if place.0 / ii >= MAX_STAGES {
            return Some(op);
        }
    }
    None
}
