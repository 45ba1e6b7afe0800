//! What `explain` writes.

ghost use Rattle.std.specs.Prelude.{◌≡◌, ◌<◌, ◌≤◌, length, count_by, IfOk, slice_index_or, vec_len};
ghost use Rattle.std.specs.List.{All};
ghost use Rattle.graph.specs.Units.{first_lacking};
ghost use Rattle.loop_schedules.specs.Problems.{ProblemData};
ghost use Rattle.file_faults.specs.Answers.{AnswersOn};
ghost use Rattle.explain_printouts.specs.Explain.{IsExplainText};
ghost use Rattle.side_by_side.specs.inner.Explained.{ExplainsPrepared, IsExplainedPart};
ghost use Rattle.text_parts.specs.Parts.{met_of};

use crate::parts::jobs::loop_jobs;
use explain::{Explained, push_last, push_prepared};
use explain_printouts::explain_text;
use file_faults::FileFault;
use loop_data::Loop;
use loop_schedules::Prepared;
use machine::{Machine, OutOfMemory};
use settings::Settings;
use shared_jobs::{Jobs, parts_of};
use std::alloc::Global;
use std::thread::Threads;
use text_parts::{Part, joined};
use workers::prepare_by_workers;
use written::Printout;

/// About how much work the explanation of a loop is for each of its statements, in statements that are executed once.
pub(crate) const EXPLAINED: u64 = 400;

/// What `explain` writes, by at most as many workers as the settings say, side by side. One worker starts no thread, and
/// neither do a single loop and loops with few statements.
///
/// # Errors
/// The first loop with an opcode that the machine has no table for; and [`FileFault::Memory`], where the calling thread
/// was refused memory.
pub fn explain_text_on<R: Threads + Sync>(
    rt: &R,
    alloc: Global,
    machine: &Machine,
    loops: Vec<Loop>,
    settings: &Settings,
) -> Result<Printout, FileFault>
    ensures { AnswersOn (IsExplainText settings.now.ratio settings.now.ceiling machine.now loops.items) (first_lacking machine.now loops.items) result }
{
    match loop_jobs(alloc, loops.as_slice(), settings.workers(), EXPLAINED) {
        Some(jobs) => explain_by(rt, alloc, machine, loops, settings, &jobs),
        None => explain_text(alloc, machine, loops, settings),
    }
}

/// What `explain` writes, by these jobs.
fn explain_by<R: Threads + Sync>(
    rt: &R,
    alloc: Global,
    machine: &Machine,
    loops: Vec<Loop>,
    settings: &Settings,
    jobs: &Jobs,
) -> Result<Printout, FileFault>
    requires each { vec_len jobs.now.list ≡ vec_len loops }
    requires within { All (λ (j : _). j.number < vec_len loops) jobs.now.list.items }
    ensures { AnswersOn (IsExplainText settings.now.ratio settings.now.ceiling machine.now loops.items) (first_lacking machine.now loops.items) result }
{
    let prepared = prepare_by_workers(rt, alloc, machine, loops, settings)?;
    let explained = explained_by(rt, alloc, machine, prepared.as_slice(), jobs)?;
    Ok(Printout::new(explained.text, explained.all_met))
}

/// Why each of these loops has its interval, by these jobs.
fn explained_by<R: Threads + Sync>(
    rt: &R,
    alloc: Global,
    machine: &Machine,
    prepared: &[Prepared],
    jobs: &Jobs,
) -> Result<Explained, OutOfMemory>
    requires each { vec_len jobs.now.list ≡ length prepared.now }
    requires within { All (λ (j : _). j.number < length prepared.now) jobs.now.list.items }
    ensures { IfOk result (ExplainsPrepared machine.now prepared.now) }
{
    let parts = parts_of(
        rt,
        alloc,
        jobs,
        &|number| { explained_part(alloc, machine, prepared, number) },
    )?;
    let met = met_among(parts.as_slice());
    let failed = prepared.len() as u64 - met;
    let mut text = joined(alloc, parts)?;
    push_last(&mut text, prepared.len() as u64, met, failed)?;
    Ok(Explained {
        text,
        all_met: failed == 0,
    })
}

/// Why the loop of a number has its interval.
fn explained_part(
    alloc: Global,
    machine: &Machine,
    prepared: &[Prepared],
    number: usize,
) -> Result<Part, OutOfMemory>
    requires { number < length prepared.now }
    ensures { IfOk result (λ part. (d : ProblemData) → IsExplainedPart machine.now (slice_index_or prepared.now number d) part) }
{
    let mut text = Vec::new(alloc);
    match push_prepared(alloc, &mut text, machine, &prepared[number]) {
        Ok(choice) => Ok(Part {
            text,
            met: choice.is_met(),
        }),
        Err(_) => Err(std::alloc::AllocError),
    }
}

/// How many parts are of loops that are met.
fn met_among(parts: &[Part]) -> u64
    ensures count { result ≡ count_by met_of parts.now }
    ensures most { result ≤ length parts.now }
{
    parts.iter().filter(|part| part.met).count() as u64
}
