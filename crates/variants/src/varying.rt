//! What each variant of a machine brings the loops of a file.

ghost use Rattle.std.specs.Prelude.{◌≤◌, vec_len};
ghost use Rattle.graph.specs.Units.{first_lacking};
ghost use Rattle.file_faults.specs.Answers.{AnswersOn};
ghost use Rattle.variants.specs.Documents.{IsVaryDocument};
ghost use Rattle.variants.specs.Texts.{IsVaryText};
ghost use Rattle.variants.specs.Totals.{IsVaryTotal};
ghost use Rattle.machine_data.specs.declared.limits.TheConstants.{MAX_LOOPS};

use crate::found::files::find_all;
use crate::told::document::findings_document;
use crate::told::parts::findings_text;
use crate::told::totals::findings_total;
use file_faults::FileFault;
use loop_data::Loop;
use machine::Machine;
use settings::Settings;
use std::alloc::Global;
use written::Printout;

/// What each variant of a machine brings loops: for each loop, in order, the interval that it has, with the least number of registers
/// for it, and a line for each variant that concerns it, with the interval that it has there. A variant is one more unit beside one
/// that the loop's operations may take, a latency of one of its opcodes that is one cycle less, or half as many registers, one less,
/// one more, twice as many or 256. Intervals are searched for by the ratio and the ceiling of the settings, by the calling thread alone.
///
/// # Errors
/// The first loop with an opcode that the machine has no table for; and [`FileFault::Memory`], where memory was refused.
pub fn vary_text(
    alloc: Global,
    machine: &Machine,
    loops: Vec<Loop>,
    settings: &Settings,
) -> Result<Printout, FileFault>
    ensures { AnswersOn (IsVaryText settings.now.ratio settings.now.ceiling machine.now loops.items) (first_lacking machine.now loops.items) result }
{
    let found = find_all(alloc, machine, loops, settings)?;
    Ok(findings_text(alloc, machine, &found)?)
}

/// The same as one JSON document.
///
/// # Errors
/// Those of [`vary_text`].
pub fn vary_document(
    alloc: Global,
    machine: &Machine,
    loops: Vec<Loop>,
    settings: &Settings,
) -> Result<Printout, FileFault>
    ensures { AnswersOn (IsVaryDocument settings.now.ratio settings.now.ceiling machine.now loops.items) (first_lacking machine.now loops.items) result }
{
    let found = find_all(alloc, machine, loops, settings)?;
    Ok(findings_document(alloc, machine, &found)?)
}

/// What each variant of a machine brings the loops of a file in all: the sum of the intervals on the machine as it is and on each variant
/// that concerns some loop, with how many loops have none, a shorter one or a longer one there. There are at most 1,024 loops, which is
/// the most that a text has.
///
/// # Errors
/// Those of [`vary_text`].
pub fn vary_total(
    alloc: Global,
    machine: &Machine,
    loops: Vec<Loop>,
    settings: &Settings,
) -> Result<Printout, FileFault>
    requires few { vec_len loops ≤ MAX_LOOPS }
    ensures exact { AnswersOn (IsVaryTotal settings.now.ratio settings.now.ceiling machine.now loops.items) (first_lacking machine.now loops.items) result }
{
    let found = find_all(alloc, machine, loops, settings)?;
    Ok(findings_total(alloc, machine, &found)?)
}
