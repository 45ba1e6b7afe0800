//! What `explain`, `edges` and `dot` print of texts, by the calling thread. (`printouts` and `json_printouts` have this of the other commands.)

ghost use Rattle.machine.specs.MachineText.{machine_of};
ghost use Rattle.loop_reader.specs.Meaning.{loops_in};
ghost use Rattle.file_faults.specs.Answers.{AnswersFile};
ghost use Rattle.explain_printouts.specs.Explain.{IsExplainText};
ghost use Rattle.graph_printouts.specs.Graphs.{IsDotText, IsEdgesText};

use explain_printouts::explain_text;
use file_faults::FileFault;
use graph_printouts::{dot_text, edges_text};
use loop_reader::read_loops;
use machine::read_machine;
use settings::Settings;
use std::alloc::Global;
use written::Printout;

/// What `explain` prints.
pub(crate) fn explained(
    alloc: Global,
    machine: &[u8],
    loops: &[u8],
    settings: &Settings,
) -> Result<Printout, FileFault>
    ensures { AnswersFile (IsExplainText settings.now.ratio settings.now.ceiling) (machine_of machine.now) (loops_in loops.now) result }
{
    let machine = read_machine(alloc, machine)?;
    let loops = read_loops(alloc, loops)?;
    explain_text(alloc, &machine, loops, settings)
}

/// What `edges` prints.
pub(crate) fn edged(alloc: Global, machine: &[u8], loops: &[u8]) -> Result<Printout, FileFault>
    ensures { AnswersFile IsEdgesText (machine_of machine.now) (loops_in loops.now) result }
{
    let machine = read_machine(alloc, machine)?;
    let loops = read_loops(alloc, loops)?;
    edges_text(alloc, &machine, loops.as_slice())
}

/// What `dot` prints.
pub(crate) fn drawn(alloc: Global, machine: &[u8], loops: &[u8]) -> Result<Printout, FileFault>
    ensures { AnswersFile IsDotText (machine_of machine.now) (loops_in loops.now) result }
{
    let machine = read_machine(alloc, machine)?;
    let loops = read_loops(alloc, loops)?;
    dot_text(alloc, &machine, loops.as_slice())
}
