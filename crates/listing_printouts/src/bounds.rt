//! What `bounds` writes.

ghost use Rattle.graph.specs.Units.{first_lacking};
ghost use Rattle.file_faults.specs.Answers.{AnswersOn};
ghost use Rattle.listing_printouts.specs.Bounds.{IsBoundsText};

use crate::last::push_last;
use file_faults::FileFault;
use loop_data::Loop;
use lower_bounds::bounds_lines;
use machine_data::Machine;
use std::alloc::Global;
use written::Printout;

/// What `bounds` writes.
pub fn bounds_text(alloc: Global, machine: &Machine, loops: &[Loop]) -> Result<Printout, FileFault>
    ensures { AnswersOn (IsBoundsText machine.now loops.now) (first_lacking machine.now loops.now) result }
{
    let mut text = bounds_lines(alloc, machine, loops)?;
    push_last(&mut text, loops.len() as u64)?;
    Ok(Printout::new(text, true))
}
