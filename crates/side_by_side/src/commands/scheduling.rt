//! What `dot --scheduled` writes.

ghost use Rattle.std.specs.Prelude.{◌≡◌, ◌<◌, ◌≤◌, length, IfOk, slice_index_or, vec_len};
ghost use Rattle.std.specs.List.{All, list_all};
ghost use Rattle.graph.specs.Units.{first_lacking};
ghost use Rattle.loop_schedules.specs.Problems.{ProblemData};
ghost use Rattle.file_faults.specs.Answers.{AnswersOn};
ghost use Rattle.scheduled_printouts.specs.Graphs.{AreScheduledGraphs};
ghost use Rattle.text_parts.specs.Parts.{met_of};
ghost use Rattle.side_by_side.specs.inner.Scheduled.{DrawsPrepared, IsDrawnPart};

use crate::parts::jobs::loop_jobs;
use file_faults::FileFault;
use loop_data::Loop;
use loop_schedules::Prepared;
use machine::{Machine, OutOfMemory};
use scheduled_printouts::{push_graph, scheduled_text};
use settings::Settings;
use shared_jobs::{Jobs, parts_of};
use std::alloc::Global;
use std::thread::Threads;
use text_parts::{Part, joined};
use workers::prepare_by_workers;
use written::Printout;

/// About how much work the schedule of a loop is for each of its statements, in statements that are executed once.
const SCHEDULED: u64 = 400;

/// What `dot --scheduled` writes, by at most as many workers as the settings say, side by side. One worker starts no thread, and
/// neither do a single loop and loops with few statements.
///
/// # Errors
/// The first loop with an opcode that the machine has no table for; and [`FileFault::Memory`], where the calling thread
/// was refused memory.
pub fn scheduled_text_on<R: Threads + Sync>(
    rt: &R,
    alloc: Global,
    machine: &Machine,
    loops: Vec<Loop>,
    settings: &Settings,
) -> Result<Printout, FileFault>
    ensures { AnswersOn (AreScheduledGraphs settings.now.ratio settings.now.ceiling machine.now loops.items) (first_lacking machine.now loops.items) result }
{
    match loop_jobs(alloc, loops.as_slice(), settings.workers(), SCHEDULED) {
        Some(jobs) => scheduled_by(rt, alloc, machine, loops, settings, &jobs),
        None => scheduled_text(alloc, machine, loops, settings),
    }
}

/// What `dot --scheduled` writes, by these jobs.
fn scheduled_by<R: Threads + Sync>(
    rt: &R,
    alloc: Global,
    machine: &Machine,
    loops: Vec<Loop>,
    settings: &Settings,
    jobs: &Jobs,
) -> Result<Printout, FileFault>
    requires each { vec_len jobs.now.list ≡ vec_len loops }
    requires within { All (λ (j : _). j.number < vec_len loops) jobs.now.list.items }
    ensures { AnswersOn (AreScheduledGraphs settings.now.ratio settings.now.ceiling machine.now loops.items) (first_lacking machine.now loops.items) result }
{
    let prepared = prepare_by_workers(rt, alloc, machine, loops, settings)?;
    let printout = drawn_by(rt, alloc, prepared.as_slice(), jobs)?;
    Ok(printout)
}

/// The graphs of these loops, by these jobs.
fn drawn_by<R: Threads + Sync>(
    rt: &R,
    alloc: Global,
    prepared: &[Prepared],
    jobs: &Jobs,
) -> Result<Printout, OutOfMemory>
    requires each { vec_len jobs.now.list ≡ length prepared.now }
    requires within { All (λ (j : _). j.number < length prepared.now) jobs.now.list.items }
    ensures { IfOk result (DrawsPrepared prepared.now) }
{
    let parts = parts_of(
        rt,
        alloc,
        jobs,
        &|number| { drawn_part(alloc, prepared, number) },
    )?;
    let all_met = are_met(parts.as_slice());
    let text = joined(alloc, parts)?;
    Ok(Printout::new(text, all_met))
}

/// The graph of the loop of a number.
fn drawn_part(alloc: Global, prepared: &[Prepared], number: usize) -> Result<Part, OutOfMemory>
    requires { number < length prepared.now }
    ensures { IfOk result (λ part. (d : ProblemData) → IsDrawnPart (slice_index_or prepared.now number d) part) }
{
    let mut text = Vec::new(alloc);
    let met = push_graph(alloc, &mut text, &prepared[number])?;
    Ok(Part { text, met })
}

/// Whether all parts are of loops that are met.
fn are_met(parts: &[Part]) -> bool
    ensures { result ≡ list_all met_of parts.now }
{
    parts.iter().all(|part| part.met)
}
