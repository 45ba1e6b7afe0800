//! What the commands write that need the listing alone, or with the loops.

ghost use Rattle.std.specs.Prelude.{◌≡◌, ℕ, List, Result, IfOk};
ghost use Rattle.file_faults.specs.Answers.{AnswersIn};
ghost use Rattle.reader_faults.specs.declared.loops.LoopFault.{LoopFault};
ghost use Rattle.loop_data.specs.Loops.{LoopData};
ghost use Rattle.machine.specs.Machines.{MachineData};
ghost use Rattle.candidates.specs.Files.{ListsProblems, PreparesAndLists};
ghost use Rattle.run_printouts.specs.Run.{IsRunText};
ghost use Rattle.json_printouts.specs.Documents.{IsListingDocument};
ghost use Rattle.printouts.specs.Schedule.{IsListingText};

use candidates::Listing;
use command_line::Trip;
use file_faults::FileFault;
use json_printouts::document_printout;
use loop_schedules::Prepared;
use shared_runs::run_text_on;
use side_by_side::listing_printout_on;
use std::alloc::Global;
use std::thread::Threads;
use text_parts::Parted;
use written::Printout;

/// What a search gives: each loop prepared, and the listing of these loops; or a fault.
pub(crate) type Searched = Result<(Vec<Prepared>, Listing), FileFault>;

/// What `schedule` writes of what a search gave.
pub(crate) fn schedule_text<R: Threads + Sync>(
    rt: &R,
    alloc: Global,
    searched: Searched,
    workers: usize,
) -> Result<Printout, FileFault>
    ensures { (machine : MachineData) (ratio ceiling : ℕ) (loops : Result (List LoopData) LoopFault) → AnswersIn (PreparesAndLists ratio ceiling machine) machine loops searched
        → AnswersIn (IsListingText ratio ceiling machine) machine loops result }
{
    let (_, listing) = searched?;
    Ok(listing_printout_on(rt, alloc, &listing, workers)?)
}

/// What `json` writes of it.
pub(crate) fn json_text(alloc: Global, searched: Searched) -> Result<Printout, FileFault>
    ensures { (machine : MachineData) (ratio ceiling : ℕ) (loops : Result (List LoopData) LoopFault) → AnswersIn (PreparesAndLists ratio ceiling machine) machine loops searched
        → AnswersIn (IsListingDocument ratio ceiling machine) machine loops result }
{
    let (_, listing) = searched?;
    Ok(document_printout(alloc, &listing)?)
}

/// What `run` writes of it.
pub(crate) fn run_text<R: Threads + Sync>(
    rt: &R,
    alloc: Global,
    searched: Searched,
    trip: Trip,
    workers: usize,
) -> Result<Parted, FileFault>
    requires { IfOk searched (λ both. ListsProblems both.1.ceiling both.0.items both.1) }
    ensures { (machine : MachineData) (ratio ceiling : ℕ) (loops : Result (List LoopData) LoopFault) → AnswersIn (PreparesAndLists ratio ceiling machine) machine loops searched
        → AnswersIn (IsRunText trip ratio ceiling machine) machine loops result }
{
    let (prepared, listing) = searched?;
    Ok(run_text_on(rt, alloc, prepared.as_slice(), &listing, trip, workers)?)
}
