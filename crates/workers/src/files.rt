//! From the texts of a machine and of loops to their listing.

ghost use Rattle.std.specs.Prelude.{◌≡◌, ◌≤◌, length, vec_len, IfOk};
ghost use Rattle.std.specs.List.{All, AllZip};
ghost use Rattle.machine.specs.MachineText.{machine_of};
ghost use Rattle.loop_reader.specs.Meaning.{loops_in};
ghost use Rattle.graph.specs.Units.{first_lacking};
ghost use Rattle.candidates.specs.Choices.{IsChoice};
ghost use Rattle.candidates.specs.Promises.{IsRight};
ghost use Rattle.candidates.specs.Files.{AnswersFile, AnswersIn, AnswersOn, HaveCeiling, ListsFile, ListsProblems, PreparesAndLists};

use crate::preparing::prepare_by_workers;
use crate::reading::apart::read_by_workers;
use board_workers::{Gate, run_workers};
use candidates::{Listing, Pieces, Settings, list_choices, pipeline_alone};
use collecting::{Chosen, gather};
use file_faults::FileFault;
use loop_data::Loop;
use loop_schedules::Prepared;
use machine::{Machine, OutOfMemory, read_machine};
use std::alloc::Global;
use std::thread::Threads;

/// What two texts give: each loop prepared, and the listing of these loops. It is the listing of one
/// thread that tries each loop's intervals one after another, whatever workers, cut and gate do.
///
/// # Errors
/// A fault of the machine's text, then one of the loops' text, then the first loop with an opcode that the
/// machine has no table for; and [`FileFault::Memory`], where the calling thread was refused memory.
pub fn pipeline<R: Threads + Sync, G: Gate + Sync>(
    rt: &R,
    alloc: Global,
    machine: &[u8],
    loops: &[u8],
    settings: &Settings,
    gate: &G,
) -> Result<(Vec<Prepared>, Listing), FileFault>
    ensures exact { AnswersFile (PreparesAndLists settings.now.ratio settings.now.ceiling) (machine_of machine.now) (loops_in loops.now) result }
{
    let machine = read_machine(alloc, machine)?;
    pipeline_of(rt, alloc, &machine, loops, settings, gate)
}

/// The listing that two texts give, as [`pipeline`] tells it.
///
/// # Errors
/// As those of [`pipeline`].
pub fn pipeline_file<R: Threads + Sync, G: Gate + Sync>(
    rt: &R,
    alloc: Global,
    machine: &[u8],
    loops: &[u8],
    settings: &Settings,
    gate: &G,
) -> Result<Listing, FileFault>
    ensures exact { AnswersFile (ListsFile settings.now.ratio settings.now.ceiling) (machine_of machine.now) (loops_in loops.now) result }
    ensures right { AnswersFile IsRight (machine_of machine.now) (loops_in loops.now) result }
{
    match pipeline(rt, alloc, machine, loops, settings, gate) {
        Ok((_, listing)) => Ok(listing),
        Err(fault) => Err(fault),
    }
}

/// What a text of loops gives on a machine: what [`pipeline`] tells of it.
///
/// # Errors
/// A fault of the text, then the first loop with an opcode that the machine has no table for; and [`FileFault::Memory`], where the
/// calling thread was refused memory.
pub fn pipeline_of<R: Threads + Sync, G: Gate + Sync>(
    rt: &R,
    alloc: Global,
    machine: &Machine,
    loops: &[u8],
    settings: &Settings,
    gate: &G,
) -> Result<(Vec<Prepared>, Listing), FileFault>
    ensures exact { AnswersIn (PreparesAndLists settings.now.ratio settings.now.ceiling machine.now) machine.now (loops_in loops.now) result }
{
    let loops = read_by_workers(rt, alloc, loops, settings.workers())?;
    pipeline_on(rt, alloc, machine, loops, settings, gate)
}

/// What loops give on a machine: what [`pipeline`] tells of their texts. There are at most 1,024, which is the most that a text has.
/// One worker cuts nothing into pieces and does not call the gate.
///
/// # Errors
/// The first loop with an opcode that the machine has no table for; and [`FileFault::Memory`], where the calling thread was
/// refused memory.
pub fn pipeline_on<R: Threads + Sync, G: Gate + Sync>(
    rt: &R,
    alloc: Global,
    machine: &Machine,
    loops: Vec<Loop>,
    settings: &Settings,
    gate: &G,
) -> Result<(Vec<Prepared>, Listing), FileFault>
    requires few { vec_len loops ≤ 1024 }
    ensures exact { AnswersOn (PreparesAndLists settings.now.ratio settings.now.ceiling machine.now loops.items) (first_lacking machine.now loops.items) result }
{
    if settings.workers() == 1 {
        return pipeline_alone(alloc, machine, loops, settings);
    }
    match prepare_by_workers(rt, alloc, machine, loops, settings) {
        Ok(prepared) => match list(rt, alloc, prepared.as_slice(), settings, gate) {
            Ok(listing) => Ok((prepared, listing)),
            Err(fault) => Err(FileFault::from(fault)),
        },
        Err(fault) => Err(fault),
    }
}

/// The listing of prepared loops.
fn list<R: Threads + Sync, G: Gate + Sync>(
    rt: &R,
    alloc: Global,
    loops: &[Prepared],
    settings: &Settings,
    gate: &G,
) -> Result<Listing, OutOfMemory>
    requires few { length loops.now ≤ 1024 }
    requires ceilings { HaveCeiling settings.now.ceiling loops.now }
    ensures { IfOk result (ListsProblems settings.now.ceiling loops.now) }
{
    let pieces = Pieces::of(loops.len(), settings.ceiling(), settings.cut());
    let chosen = choose_by_workers(rt, alloc, loops, &pieces, settings.workers(), gate)?;
    list_choices(alloc, loops, chosen.into_choices(), settings)
}

/// The choice of each loop, by at most `workers` workers, 1 to 64, and no more than there are pieces.
/// The calling thread tries what workers leave, and all where there is no memory to start them.
///
/// # Errors
/// The calling thread was refused memory.
pub fn choose_by_workers<R: Threads + Sync, G: Gate + Sync>(
    rt: &R,
    alloc: Global,
    loops: &[Prepared],
    pieces: &Pieces,
    workers: usize,
    gate: &G,
) -> Result<Chosen, OutOfMemory>
    requires each_loop { pieces.now.loops ≡ length loops.now }
    requires ceilings { All (λ p. p.ceiling ≡ pieces.now.ceiling) loops.now }
    requires some { 1 ≤ workers }
    requires few { workers ≤ 64 }
    ensures choices { IfOk result (λ c. AllZip IsChoice loops.now c.choices) }
{
    let workers = workers.min(pieces.number() as usize).max(1);
    match run_workers(rt, alloc, loops, pieces, workers, gate) {
        Ok(reports) => gather(alloc, loops, reports),
        Err(_) => gather(alloc, loops, Vec::new(alloc)),
    }
}
