//! What `vary` writes.

ghost use Rattle.std.specs.Prelude.{◌≡◌, ◌<◌, ◌≤◌, length, IfOk, IfSome, slice_index_or, vec_len};
ghost use Rattle.std.specs.List.{All, AllZip};
ghost use Rattle.graph.specs.Units.{first_lacking};
ghost use Rattle.loop_schedules.specs.Problems.{ProblemData};
ghost use Rattle.file_faults.specs.Answers.{AnswersOn};
ghost use Rattle.variants.specs.Documents.{IsVaryDocument};
ghost use Rattle.variants.specs.Findings.{AreFindings, AreFound, IsOn};
ghost use Rattle.variants.specs.Texts.{IsVaryText};
ghost use Rattle.variants.specs.Totals.{IsVaryTotal};
ghost use Rattle.machine_data.specs.declared.limits.TheConstants.{MAX_LOOPS};

use file_faults::FileFault;
use loop_data::Loop;
use loop_schedules::Prepared;
use machine::{Machine, OutOfMemory};
use settings::Settings;
use shared_jobs::{Jobs, parts_of, shared};
use std::alloc::Global;
use std::thread::Threads;
use variants::{
    FileFindings, LoopFindings, find_all, findings_document, findings_of, findings_text,
    findings_total,
};
use workers::prepare_by_workers;
use written::Printout;

/// About how much work the search on the variants of a machine is for each statement of a loop, in statements that are executed once.
const VARIED: u64 = 2_000;

/// What each variant of a machine brings loops, as `vary_text` of `variants` tells it, by at most as many workers as the
/// settings say, side by side. One worker starts no thread, and neither do a single loop and loops with few statements.
///
/// # Errors
/// The first loop with an opcode that the machine has no table for; and [`FileFault::Memory`], where the calling thread
/// was refused memory.
pub fn vary_text_on<R: Threads + Sync>(
    rt: &R,
    alloc: Global,
    machine: &Machine,
    loops: Vec<Loop>,
    settings: &Settings,
) -> Result<Printout, FileFault>
    ensures { AnswersOn (IsVaryText settings.now.ratio settings.now.ceiling machine.now loops.items) (first_lacking machine.now loops.items) result }
{
    let found = find_all_on(rt, alloc, machine, loops, settings)?;
    Ok(findings_text(alloc, machine, &found)?)
}

/// The same as one JSON document, as `vary_document` of `variants` tells it.
///
/// # Errors
/// Those of [`vary_text_on`].
pub fn vary_document_on<R: Threads + Sync>(
    rt: &R,
    alloc: Global,
    machine: &Machine,
    loops: Vec<Loop>,
    settings: &Settings,
) -> Result<Printout, FileFault>
    ensures { AnswersOn (IsVaryDocument settings.now.ratio settings.now.ceiling machine.now loops.items) (first_lacking machine.now loops.items) result }
{
    let found = find_all_on(rt, alloc, machine, loops, settings)?;
    Ok(findings_document(alloc, machine, &found)?)
}

/// What each variant of a machine brings the loops of a file in all, as `vary_total` of `variants` tells it. There are at most
/// 1,024 loops, which is the most that a text has.
///
/// # Errors
/// Those of [`vary_text_on`].
pub fn vary_total_on<R: Threads + Sync>(
    rt: &R,
    alloc: Global,
    machine: &Machine,
    loops: Vec<Loop>,
    settings: &Settings,
) -> Result<Printout, FileFault>
    requires few { vec_len loops ≤ MAX_LOOPS }
    ensures exact { AnswersOn (IsVaryTotal settings.now.ratio settings.now.ceiling machine.now loops.items) (first_lacking machine.now loops.items) result }
{
    let found = find_all_on(rt, alloc, machine, loops, settings)?;
    Ok(findings_total(alloc, machine, &found)?)
}

/// The loops prepared, with what is found of each, by at most as many workers as the settings say.
fn find_all_on<R: Threads + Sync>(
    rt: &R,
    alloc: Global,
    machine: &Machine,
    loops: Vec<Loop>,
    settings: &Settings,
) -> Result<FileFindings, FileFault>
    ensures { AnswersOn (AreFound settings.now.ratio settings.now.ceiling machine.now loops.items) (first_lacking machine.now loops.items) result }
{
    match vary_jobs(alloc, loops.as_slice(), settings.workers()) {
        Some(jobs) => find_by(rt, alloc, machine, loops, settings, &jobs),
        None => find_all(alloc, machine, loops, settings),
    }
}

/// The jobs of loops that variants are looked at for.
fn vary_jobs(alloc: Global, loops: &[Loop], workers: usize) -> Option<Jobs>
    ensures each { IfSome result (λ s. vec_len s.list ≡ length loops.now) }
    ensures within { IfSome result (λ s. All (λ (j : _). j.number < length loops.now) s.list.items) }
{
    shared(
        alloc,
        loops.len(),
        workers,
        &|number| { VARIED.saturating_mul(loops[number].statements().len() as u64) },
    )
}

/// The loops prepared, with what is found of each, by these jobs.
fn find_by<R: Threads + Sync>(
    rt: &R,
    alloc: Global,
    machine: &Machine,
    loops: Vec<Loop>,
    settings: &Settings,
    jobs: &Jobs,
) -> Result<FileFindings, FileFault>
    requires each { vec_len jobs.now.list ≡ vec_len loops }
    requires within { All (λ (j : _). j.number < vec_len loops) jobs.now.list.items }
    ensures { AnswersOn (AreFound settings.now.ratio settings.now.ceiling machine.now loops.items) (first_lacking machine.now loops.items) result }
{
    let prepared = prepare_by_workers(rt, alloc, machine, loops, settings)?;
    let loops = found_by(rt, alloc, machine, prepared.as_slice(), jobs)?;
    Ok(FileFindings { prepared, loops })
}

/// What is found of each of these loops, by these jobs.
fn found_by<R: Threads + Sync>(
    rt: &R,
    alloc: Global,
    machine: &Machine,
    prepared: &[Prepared],
    jobs: &Jobs,
) -> Result<Vec<LoopFindings>, OutOfMemory>
    requires on { All (IsOn machine.now) prepared.now }
    requires each { vec_len jobs.now.list ≡ length prepared.now }
    requires within { All (λ (j : _). j.number < length prepared.now) jobs.now.list.items }
    ensures { IfOk result (λ loops. AllZip (AreFindings machine.now) prepared.now loops.items) }
{
    let loops = parts_of(
        rt,
        alloc,
        jobs,
        &|number| { found_part(alloc, machine, prepared, number) },
    )?;
    Ok(loops)
}

/// What is found of the loop of a number.
fn found_part(
    alloc: Global,
    machine: &Machine,
    prepared: &[Prepared],
    number: usize,
) -> Result<LoopFindings, OutOfMemory>
    requires on { All (IsOn machine.now) prepared.now }
    requires within { number < length prepared.now }
    ensures { IfOk result (λ found. (d : ProblemData) → AreFindings machine.now (slice_index_or prepared.now number d) found) }
{
    let found = findings_of(alloc, machine, &prepared[number])?;
    Ok(found)
}
