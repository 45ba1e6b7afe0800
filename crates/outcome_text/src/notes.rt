//! What the bounds of a problem are due to.

ghost use Rattle.std.specs.Prelude.{IfOk};
ghost use Rattle.outcome_text.specs.Notes.{AreNotes};

use crate::circuit::push_circuit;
use crate::units::push_fullest;
use machine_data::OutOfMemory;
use problems::Problem;
use std::alloc::Global;

/// Bytes for which there is room at once: few problems have more notes.
const NOTES: usize = 256;

/// The lines of what the bounds of a problem are due to.
pub(crate) fn notes_of(alloc: Global, problem: &Problem) -> Result<Vec<u8>, OutOfMemory>
    ensures { IfOk result (λ notes. AreNotes problem.now notes.items) }
{
    let mut notes = Vec::with_capacity(alloc, NOTES)?;
    push_circuit(alloc, &mut notes, problem)?;
    push_fullest(alloc, &mut notes, problem)?;
    Ok(notes)
}
