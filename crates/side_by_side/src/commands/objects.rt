//! What `explain` writes as JSON, and as a page.

ghost use Rattle.std.specs.Prelude.{◌≡◌, ◌<◌, ◌≤◌, length, IfOk, slice_index_or, vec_len};
ghost use Rattle.std.specs.List.{All, AllZip};
ghost use Rattle.graph.specs.Units.{first_lacking};
ghost use Rattle.loop_schedules.specs.Problems.{ProblemData};
ghost use Rattle.file_faults.specs.Answers.{AnswersOn};
ghost use Rattle.explain_printouts.specs.ExplainDocuments.{AreObjects, IsExplainDocument, IsExplainPage, IsObjectOf};

use crate::commands::explaining::EXPLAINED;
use crate::parts::jobs::loop_jobs;
use explain_printouts::{Object, explain_objects, object_of, objects_document, objects_page};
use file_faults::FileFault;
use loop_data::Loop;
use loop_schedules::Prepared;
use machine::{Machine, OutOfMemory};
use settings::Settings;
use shared_jobs::{Jobs, parts_of};
use std::alloc::Global;
use std::thread::Threads;
use workers::prepare_by_workers;
use written::Printout;

/// What `explain --format json` writes, by at most as many workers as the settings say, side by side. One worker starts no
/// thread, and neither do a single loop and loops with few statements.
///
/// # Errors
/// The first loop with an opcode that the machine has no table for; and [`FileFault::Memory`], where the calling thread
/// was refused memory.
pub fn explain_document_on<R: Threads + Sync>(
    rt: &R,
    alloc: Global,
    machine: &Machine,
    loops: Vec<Loop>,
    settings: &Settings,
) -> Result<Printout, FileFault>
    ensures { AnswersOn (IsExplainDocument settings.now.ratio settings.now.ceiling machine.now loops.items) (first_lacking machine.now loops.items) result }
{
    let objects = objects_on(rt, alloc, machine, loops, settings)?;
    Ok(objects_document(alloc, objects.as_slice())?)
}

/// What `explain --format html` writes, likewise: the page that shows the document of [`explain_document_on`].
///
/// # Errors
/// Those of [`explain_document_on`].
pub fn explain_page_on<R: Threads + Sync>(
    rt: &R,
    alloc: Global,
    machine: &Machine,
    loops: Vec<Loop>,
    settings: &Settings,
) -> Result<Printout, FileFault>
    ensures { AnswersOn (IsExplainPage settings.now.ratio settings.now.ceiling machine.now loops.items) (first_lacking machine.now loops.items) result }
{
    let objects = objects_on(rt, alloc, machine, loops, settings)?;
    Ok(objects_page(alloc, objects.as_slice())?)
}

/// The objects of loops, by at most as many workers as the settings say.
fn objects_on<R: Threads + Sync>(
    rt: &R,
    alloc: Global,
    machine: &Machine,
    loops: Vec<Loop>,
    settings: &Settings,
) -> Result<Vec<Object>, FileFault>
    ensures { AnswersOn (AreObjects settings.now.ratio settings.now.ceiling machine.now loops.items) (first_lacking machine.now loops.items) result }
{
    match loop_jobs(alloc, loops.as_slice(), settings.workers(), EXPLAINED) {
        Some(jobs) => objects_by(rt, alloc, machine, loops, settings, &jobs),
        None => explain_objects(alloc, machine, loops, settings),
    }
}

/// The objects of loops, by these jobs.
fn objects_by<R: Threads + Sync>(
    rt: &R,
    alloc: Global,
    machine: &Machine,
    loops: Vec<Loop>,
    settings: &Settings,
    jobs: &Jobs,
) -> Result<Vec<Object>, FileFault>
    requires each { vec_len jobs.now.list ≡ vec_len loops }
    requires within { All (λ (j : _). j.number < vec_len loops) jobs.now.list.items }
    ensures { AnswersOn (AreObjects settings.now.ratio settings.now.ceiling machine.now loops.items) (first_lacking machine.now loops.items) result }
{
    let prepared = prepare_by_workers(rt, alloc, machine, loops, settings)?;
    let objects = made_by(rt, alloc, machine, prepared.as_slice(), jobs)?;
    Ok(objects)
}

/// The objects of prepared loops, by these jobs.
fn made_by<R: Threads + Sync>(
    rt: &R,
    alloc: Global,
    machine: &Machine,
    prepared: &[Prepared],
    jobs: &Jobs,
) -> Result<Vec<Object>, OutOfMemory>
    requires each { vec_len jobs.now.list ≡ length prepared.now }
    requires within { All (λ (j : _). j.number < length prepared.now) jobs.now.list.items }
    ensures { IfOk result (λ objects. AllZip (IsObjectOf machine.now) prepared.now objects.items) }
{
    let objects = parts_of(
        rt,
        alloc,
        jobs,
        &|number| { object_part(alloc, machine, prepared, number) },
    )?;
    Ok(objects)
}

/// The object of the loop of a number.
fn object_part(
    alloc: Global,
    machine: &Machine,
    prepared: &[Prepared],
    number: usize,
) -> Result<Object, OutOfMemory>
    requires { number < length prepared.now }
    ensures { IfOk result (λ object. (d : ProblemData) → IsObjectOf machine.now (slice_index_or prepared.now number d) object) }
{
    let object = object_of(alloc, machine, &prepared[number])?;
    Ok(object)
}
