//! What `run` and `plain` write of the texts of a machine and of loops, where the calling thread alone does all work.

ghost use Rattle.std.specs.Prelude.{◌≤◌, vec_len};
ghost use Rattle.machine_data.specs.declared.limits.TheConstants.{MAX_LOOPS};
ghost use Rattle.graph.specs.Units.{first_lacking};
ghost use Rattle.file_faults.specs.Answers.{AnswersAlone, AnswersFile, AnswersOn};
ghost use Rattle.loop_reader.specs.Meaning.{loops_in};
ghost use Rattle.machine.specs.MachineText.{machine_of};
ghost use Rattle.lines_of_runs.specs.Plain.{IsPlainText};
ghost use Rattle.run_printouts.specs.Run.{IsRunText};

use candidates::pipeline_alone;
use file_faults::FileFault;
use lines_of_runs::{plain_text, run_printout};
use loop_data::Loop;
use loop_reader::read_loops;
use machine::{Machine, read_machine};
use settings::{Settings, Trip};
use std::alloc::Global;
use written::Printout;

/// What `run` writes of the texts of a machine and of loops.
///
/// # Errors
/// The fault of the machine's text, else that of the loops' text, else the first loop with an opcode that the machine has no table
/// for; and [`FileFault::Memory`], where memory was refused.
pub fn run_alone(
    alloc: Global,
    machine: &[u8],
    loops: &[u8],
    trip: Trip,
    settings: &Settings,
) -> Result<Printout, FileFault>
    ensures { AnswersFile (IsRunText trip settings.now.ratio settings.now.ceiling) (machine_of machine.now) (loops_in loops.now) result }
{
    let machine = read_machine(alloc, machine)?;
    let loops = read_loops(alloc, loops)?;
    run(alloc, &machine, loops, trip, settings)
}

/// What `plain` writes of the text of loops.
///
/// # Errors
/// The fault of the text; and [`FileFault::Memory`], where memory was refused.
pub fn plain_alone(alloc: Global, loops: &[u8], trip: Trip) -> Result<Printout, FileFault>
    ensures { AnswersAlone (IsPlainText trip) (loops_in loops.now) result }
{
    let loops = read_loops(alloc, loops)?;
    plain_text(alloc, loops.as_slice(), trip)
}

/// What `run` writes of loops that were read.
fn run(
    alloc: Global,
    machine: &Machine,
    loops: Vec<Loop>,
    trip: Trip,
    settings: &Settings,
) -> Result<Printout, FileFault>
    requires few { vec_len loops ≤ MAX_LOOPS }
    ensures { AnswersOn (IsRunText trip settings.now.ratio settings.now.ceiling machine.now loops.items) (first_lacking machine.now loops.items) result }
{
    let (prepared, listing) = pipeline_alone(alloc, machine, loops, settings)?;
    Ok(run_printout(alloc, prepared.as_slice(), &listing, trip)?)
}
