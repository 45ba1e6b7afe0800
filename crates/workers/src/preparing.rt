//! Loops prepared by workers.

ghost use Rattle.std.specs.Prelude.{◌≡◌, ◌<◌, ◌≤◌, [], None, IfOk, IfSome, length, slice_index_or, vec_capacity, vec_len};
ghost use Rattle.std.specs.List.{All, AllZip};
ghost use Rattle.loop_data.specs.Loops.{LoopData};
ghost use Rattle.graph.specs.Units.{first_without_table, first_lacking, lacking_or};
ghost use Rattle.loop_schedules.specs.Problems.{IsProblemOf};
ghost use Rattle.candidates.specs.Files.{AnswersOn, Prepares};
ghost use Rattle.workers.specs.inner.Found.{IsFound};

use candidates::{Settings, prepare_all};
use file_faults::FileFault;
use graph::GraphFault;
use loop_data::Loop;
use loop_schedules::{Prepared, loop_problem};
use machine::{Machine, Opcode, OutOfMemory};
use schedules::Problem;
use shared_jobs::{Jobs, parts_of, shared};
use std::alloc::{AllocError, Global};
use std::thread::Threads;

/// About how much work it is to prepare a loop, for each of its statements, in statements that are executed once.
const PREPARED: u64 = 40;

/// What is to be scheduled of a loop, or the first opcode of its statements that the machine has no table for.
type Found = Result<Problem, Opcode>;

/// All loops prepared, in order, by at most as many workers as the settings say, side by side. One worker starts no thread, and neither do
/// a single loop and loops with few statements. Nothing that is answered depends on workers.
///
/// # Errors
/// The first loop with an opcode that the machine has no table for; and [`FileFault::Memory`], where the calling thread was
/// refused memory.
pub fn prepare_by_workers<R: Threads + Sync>(
    rt: &R,
    alloc: Global,
    machine: &Machine,
    loops: Vec<Loop>,
    settings: &Settings,
) -> Result<Vec<Prepared>, FileFault>
    ensures exact { AnswersOn (Prepares settings.now.ratio settings.now.ceiling machine.now loops.items) (first_lacking machine.now loops.items) result }
{
    match prepare_jobs(alloc, loops.as_slice(), settings.workers()) {
        Some(jobs) => prepare_by(rt, alloc, machine, loops, settings, &jobs),
        None => prepare_all(alloc, machine, loops, settings),
    }
}

/// The jobs of loops that are to be prepared.
fn prepare_jobs(alloc: Global, loops: &[Loop], workers: usize) -> Option<Jobs>
    ensures each { IfSome result (λ s. vec_len s.list ≡ length loops.now) }
    ensures within { IfSome result (λ s. All (λ (j : _). j.number < length loops.now) s.list.items) }
{
    shared(
        alloc,
        loops.len(),
        workers,
        &|number| { PREPARED.saturating_mul(loops[number].statements().len() as u64) },
    )
}

/// All loops prepared, by these jobs.
fn prepare_by<R: Threads + Sync>(
    rt: &R,
    alloc: Global,
    machine: &Machine,
    loops: Vec<Loop>,
    settings: &Settings,
    jobs: &Jobs,
) -> Result<Vec<Prepared>, FileFault>
    requires each { vec_len jobs.now.list ≡ vec_len loops }
    requires within { All (λ (j : _). j.number < vec_len loops) jobs.now.list.items }
    ensures exact { AnswersOn (Prepares settings.now.ratio settings.now.ceiling machine.now loops.items) (first_lacking machine.now loops.items) result }
{
    match found_by(rt, alloc, machine, loops.as_slice(), settings, jobs) {
        Ok(found) => join_all(alloc, machine, loops, found, settings),
        Err(fault) => Err(FileFault::from(fault)),
    }
}

/// What is found of each of these loops, by these jobs.
fn found_by<R: Threads + Sync>(
    rt: &R,
    alloc: Global,
    machine: &Machine,
    loops: &[Loop],
    settings: &Settings,
    jobs: &Jobs,
) -> Result<Vec<Found>, OutOfMemory>
    requires each { vec_len jobs.now.list ≡ length loops.now }
    requires within { All (λ (j : _). j.number < length loops.now) jobs.now.list.items }
    ensures { IfOk result (λ found. AllZip (IsFound settings.now.ratio settings.now.ceiling machine.now) loops.now found.items) }
{
    let found = parts_of(
        rt,
        alloc,
        jobs,
        &|number| { found_part(alloc, machine, loops, settings, number) },
    )?;
    Ok(found)
}

/// What is found of the loop of a number.
fn found_part(
    alloc: Global,
    machine: &Machine,
    loops: &[Loop],
    settings: &Settings,
    number: usize,
) -> Result<Found, OutOfMemory>
    requires { number < length loops.now }
    ensures { IfOk result (λ found. (d : LoopData) → IsFound settings.now.ratio settings.now.ceiling machine.now (slice_index_or loops.now number d) found) }
{
    let (ratio, ceiling) = (settings.ratio(), settings.ceiling());
    match loop_problem(alloc, machine, &loops[number], ratio, ceiling) {
        Ok(problem) => Ok(Ok(problem)),
        Err(GraphFault::NoTable(opcode)) => Ok(Err(opcode)),
        Err(GraphFault::Memory) => Err(AllocError),
    }
}

/// All loops prepared, from what is found of each.
fn join_all(
    alloc: Global,
    machine: &Machine,
    loops: Vec<Loop>,
    found: Vec<Found>,
    settings: &Settings,
) -> Result<Vec<Prepared>, FileFault>
    requires found { AllZip (IsFound settings.now.ratio settings.now.ceiling machine.now) loops.items found.items }
    ensures exact { AnswersOn (Prepares settings.now.ratio settings.now.ceiling machine.now loops.items) (first_lacking machine.now loops.items) result }
{
    match Vec::with_capacity(alloc, loops.len()) {
        Ok(prepared) => join_into(machine, loops, found, settings, prepared),
        Err(fault) => Err(FileFault::from(fault)),
    }
}

/// All loops prepared, in room that is there.
fn join_into(
    machine: &Machine,
    loops: Vec<Loop>,
    found: Vec<Found>,
    settings: &Settings,
    mut prepared: Vec<Prepared>,
) -> Result<Vec<Prepared>, FileFault>
    requires found { AllZip (IsFound settings.now.ratio settings.now.ceiling machine.now) loops.items found.items }
    requires room { vec_len loops ≤ vec_capacity prepared }
    requires empty { prepared.items ≡ [] }
    ensures exact { AnswersOn (Prepares settings.now.ratio settings.now.ceiling machine.now loops.items) (first_lacking machine.now loops.items) result }
{
    let mut loops = loops.into_iter();
    let mut found = found.into_iter();
    while let Some(innermost) = loops.next() {
        let Some(part) = found.next() else {
            break;
        };
        match join_one(machine, innermost, part, settings) {
            Ok(one) => prepared.push_reserved(one),
            Err(fault) => return Err(fault),
        }
    }
    Ok(prepared)
}

/// A loop prepared, or its fault.
fn join_one(
    machine: &Machine,
    innermost: Loop,
    found: Found,
    _settings: &Settings,
) -> Result<Prepared, FileFault>
    requires { IsFound _settings.now.ratio _settings.now.ceiling machine.now innermost found }
    ensures exact { AnswersOn (IsProblemOf machine.now innermost _settings.now.ratio _settings.now.ceiling) (lacking_or innermost.name (first_without_table machine.now innermost) None) result }
{
    match found {
        Ok(problem) => Ok(Prepared::of(machine, innermost, problem)),
        Err(opcode) => Err(FileFault::NoTable(innermost.name().copied(), opcode)),
    }
}
