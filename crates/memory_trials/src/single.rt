//! Calls on one loop, a running sum.

ghost use Rattle.walks.specs.Walks.{FitsCircuits};
ghost use Rattle.rotating.specs.Allotments.{Suits};

use crate::answers::{Answer, tell, tell_not_begun};
use crate::bare::try_checks;
use edges::Edges;
use ims::{Try, attempt};
use kernel::Kernel;
use kernel_runs::{simulate, simulate_from};
use loop_schedules::{Prepared, Schedule};
use loops::{Memory, RunFault, opening, run_from, write_loop};
use mrt::{MaskTable, ModuloTable, OwnerTable};
use rotating::{Allotment, allot, emit};
use std::alloc::Global;
use std::io;
use walks::{feasible, heights};
use worked_texts::ACC;

/// Tells what calls on the loop come to.
pub fn try_all(rt: &(impl AllocGlobal + Print), prepared: &Prepared) -> io::Result<()> {
    let alloc = rt.alloc();
    tell(
        rt,
        "write_loop",
        written(alloc, prepared),
        written(alloc, prepared),
    )?;
    tell(
        rt,
        "heights",
        measured(alloc, prepared),
        measured(alloc, prepared),
    )?;
    tell(
        rt,
        "attempt by owners",
        attempted::<OwnerTable>(alloc, prepared),
        attempted::<OwnerTable>(alloc, prepared),
    )?;
    tell(
        rt,
        "attempt by masks",
        attempted::<MaskTable>(alloc, prepared),
        attempted::<MaskTable>(alloc, prepared),
    )
}

fn written(alloc: Global, prepared: &Prepared) -> Answer {
    match write_loop(alloc, prepared.innermost()) {
        Ok(text) => Answer::right_if(text.as_str() == ACC),
        Err(_) => Answer::Refused,
    }
}

/// The heights at an interval of 2.
fn measured(alloc: Global, prepared: &Prepared) -> Answer {
    match feasible(alloc, prepared.edges(), 2) {
        Ok(true) => measured_from(alloc, prepared.edges()),
        _ => Answer::Wrong,
    }
}

fn measured_from(alloc: Global, edges: &Edges) -> Answer
    requires { FitsCircuits edges.now.edges 2 }
{
    match heights(alloc, edges, 2) {
        Ok(found) => Answer::right_if(found.as_slice() == [5, 2, 1].as_slice()),
        Err(_) => Answer::Refused,
    }
}

/// An attempt at an interval of 4.
fn attempted<T: ModuloTable>(alloc: Global, prepared: &Prepared) -> Answer {
    if prepared.mii() > 4 {
        return Answer::Wrong;
    }
    match attempt::<T>(alloc, prepared, 4, 18) {
        Ok(Try::Placed(schedule)) => Answer::right_if(has_times(&schedule)),
        Ok(Try::Failed(_)) => Answer::Wrong,
        Err(_) => Answer::Refused,
    }
}

/// Whether the operations are issued at these times.
fn has_times(schedule: &Schedule) -> bool {
    if schedule.prepared().operations() != 3 {
        return false;
    }
    [schedule.time(0), schedule.time(1), schedule.time(2)] == [0, 3, 5]
}

/// Tells what calls on a schedule of the loop at an interval of 4 come to.
pub fn try_schedule(rt: &(impl AllocGlobal + Print), prepared: &Prepared) -> io::Result<()> {
    match Schedule::check(rt.alloc(), prepared, 4, &[(0, 0), (3, 0), (5, 0)]) {
        Ok(Some(schedule)) => try_numbers(rt, &schedule),
        _ => tell_not_begun(rt),
    }
}

fn try_numbers(rt: &(impl AllocGlobal + Print), schedule: &Schedule) -> io::Result<()> {
    let alloc = rt.alloc();
    tell(
        rt,
        "allot",
        allotted(alloc, schedule),
        allotted(alloc, schedule),
    )?;
    match allot(alloc, schedule, 2) {
        Ok(Some(allotment)) => try_kernel(rt, schedule, &allotment),
        _ => tell_not_begun(rt),
    }
}

fn allotted(alloc: Global, schedule: &Schedule) -> Answer {
    match allot(alloc, schedule, 2) {
        Ok(Some(allotment)) => Answer::right_if(allotment.numbers() == [0, 0].as_slice()),
        Ok(None) => Answer::Wrong,
        Err(_) => Answer::Refused,
    }
}

fn try_kernel(
    rt: &(impl AllocGlobal + Print),
    schedule: &Schedule,
    allotment: &Allotment,
) -> io::Result<()>
    requires { Suits schedule.now allotment.now }
{
    let alloc = rt.alloc();
    let first = emitted(alloc, schedule, allotment);
    tell(rt, "emit", first, emitted(alloc, schedule, allotment))?;
    match emit(alloc, schedule.prepared().innermost(), schedule, allotment) {
        Ok(kernel) => {
            try_runs(rt, schedule.prepared(), &kernel)?;
            try_checks(rt, schedule, kernel)
        }
        Err(_) => tell_not_begun(rt),
    }
}

fn emitted(alloc: Global, schedule: &Schedule, allotment: &Allotment) -> Answer
    requires { Suits schedule.now allotment.now }
{
    match emit(alloc, schedule.prepared().innermost(), schedule, allotment) {
        Ok(kernel) => Answer::right_if(is_wanted(&kernel)),
        Err(_) => Answer::Refused,
    }
}

/// Whether a kernel has the sizes of the one that is wanted.
fn is_wanted(kernel: &Kernel) -> bool {
    let parts = kernel.parts();
    parts.ii == 4 && parts.stages == 2 && parts.operations.as_slice().len() == 3
}

/// Runs of the kernel and of the loop, for three iterations.
fn try_runs(
    rt: &(impl AllocGlobal + Print),
    prepared: &Prepared,
    kernel: &Kernel,
) -> io::Result<()> {
    let alloc = rt.alloc();
    tell(rt, "run_from", ran(alloc, prepared), ran(alloc, prepared))?;
    tell(
        rt,
        "simulate_from",
        left(alloc, prepared, kernel),
        left(alloc, prepared, kernel),
    )?;
    match opening(alloc, prepared.innermost(), 3) {
        Ok(memory) => tell(
            rt,
            "simulate",
            come_to(simulate(alloc, kernel, 3, &memory)),
            come_to(simulate(alloc, kernel, 3, &memory)),
        ),
        Err(_) => tell_not_begun(rt),
    }
}

fn left(alloc: Global, prepared: &Prepared, kernel: &Kernel) -> Answer {
    match opening(alloc, prepared.innermost(), 3) {
        Ok(memory) => come_to(simulate_from(alloc, kernel, 3, memory)),
        Err(_) => Answer::Refused,
    }
}

fn ran(alloc: Global, prepared: &Prepared) -> Answer {
    match opening(alloc, prepared.innermost(), 3) {
        Ok(memory) => come_to(run_from(alloc, prepared.innermost(), memory)),
        Err(_) => Answer::Refused,
    }
}

/// What a run came to.
fn come_to(run: Result<Memory, RunFault>) -> Answer {
    match run {
        Ok(after) => Answer::right_if(has_sums(&after)),
        Err(RunFault::Memory) => Answer::Refused,
        Err(_) => Answer::Wrong,
    }
}

/// Whether the second of two arrays holds the sums of three iterations.
fn has_sums(memory: &Memory) -> bool {
    if memory.array_count() != 2 || memory.trip() != 3 {
        return false;
    }
    [memory.cell(1, 0), memory.cell(1, 1), memory.cell(1, 2)] == [1, 3, 6]
}
