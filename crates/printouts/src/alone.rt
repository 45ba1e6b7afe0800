//! What `schedule` and `bounds` write of the texts of a machine and of loops, where the calling thread alone does all work.

ghost use Rattle.std.specs.Prelude.{◌≤◌, vec_len};
ghost use Rattle.machine_data.specs.declared.limits.TheConstants.{MAX_LOOPS};
ghost use Rattle.graph.specs.Units.{first_lacking};
ghost use Rattle.file_faults.specs.Answers.{AnswersFile, AnswersOn};
ghost use Rattle.loop_reader.specs.Meaning.{loops_in};
ghost use Rattle.machine.specs.MachineText.{machine_of};
ghost use Rattle.listing_printouts.specs.Bounds.{IsBoundsText};
ghost use Rattle.printouts.specs.Schedule.{IsListingText};

use candidates::pipeline_alone;
use file_faults::FileFault;
use listing_printouts::{bounds_text, listing_printout};
use loop_data::Loop;
use loop_reader::read_loops;
use machine::{Machine, read_machine};
use settings::Settings;
use std::alloc::Global;
use written::Printout;

/// What `schedule` writes of the texts of a machine and of loops.
///
/// # Errors
/// The fault of the machine's text, else that of the loops' text, else the first loop with an opcode that the machine has no table
/// for; and [`FileFault::Memory`], where memory was refused.
pub fn schedule_alone(
    alloc: Global,
    machine: &[u8],
    loops: &[u8],
    settings: &Settings,
) -> Result<Printout, FileFault>
    ensures { AnswersFile (IsListingText settings.now.ratio settings.now.ceiling) (machine_of machine.now) (loops_in loops.now) result }
{
    let machine = read_machine(alloc, machine)?;
    let loops = read_loops(alloc, loops)?;
    scheduled(alloc, &machine, loops, settings)
}

/// What `bounds` writes of these texts.
///
/// # Errors
/// As those of [`schedule_alone`].
pub fn bounds_alone(alloc: Global, machine: &[u8], loops: &[u8]) -> Result<Printout, FileFault>
    ensures { AnswersFile IsBoundsText (machine_of machine.now) (loops_in loops.now) result }
{
    let machine = read_machine(alloc, machine)?;
    let loops = read_loops(alloc, loops)?;
    bounds_text(alloc, &machine, loops.as_slice())
}

/// What `schedule` writes of loops that were read.
fn scheduled(
    alloc: Global,
    machine: &Machine,
    loops: Vec<Loop>,
    settings: &Settings,
) -> Result<Printout, FileFault>
    requires few { vec_len loops ≤ MAX_LOOPS }
    ensures { AnswersOn (IsListingText settings.now.ratio settings.now.ceiling machine.now loops.items) (first_lacking machine.now loops.items) result }
{
    let (_, listing) = pipeline_alone(alloc, machine, loops, settings)?;
    Ok(listing_printout(alloc, &listing)?)
}
