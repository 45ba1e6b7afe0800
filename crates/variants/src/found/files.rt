//! What is found of the loops of a file.

ghost use Rattle.std.specs.Prelude.{◌≡◌, ◌∷◌, [], ◌++◌, IfOk, OnOk};
ghost use Rattle.std.specs.List.{All, AllZip};
ghost use Rattle.graph.specs.Units.{first_lacking};
ghost use Rattle.file_faults.specs.Answers.{AnswersOn};
ghost use Rattle.variants.specs.declared.found.finding.LoopFindings.{LoopFindings};
ghost use Rattle.variants.specs.Findings.{AreFindings, AreFound, IsOn};

use crate::found::each::findings_of;
use crate::found::finding::LoopFindings;
use candidates::prepare_all;
use file_faults::FileFault;
use loop_data::Loop;
use loop_schedules::Prepared;
use machine::Machine;
use machine_data::OutOfMemory;
use settings::Settings;
use std::alloc::Global;

/// The loops of a file, with what is found of each, in the same order.
#[derive(Drop)]
pub struct FileFindings {
    pub prepared: Vec<Prepared>,
    pub loops: Vec<LoopFindings>,
}

/// Adds what is found of a loop.
fn add_loop(
    alloc: Global,
    loops: &mut Vec<LoopFindings>,
    machine: &Machine,
    prepared: &Prepared,
) -> Result<(), OutOfMemory>
    requires { IsOn machine.now prepared.now }
    ensures ok { OnOk result ((found : LoopFindings) × AreFindings machine.now prepared.now found × (loops.new.items ≡ loops.old.items ++ found ∷ [])) }
{
    let found = findings_of(alloc, machine, prepared)?;
    Ok(loops.push(found)?)
}

/// What is found of each loop.
fn find_each(
    alloc: Global,
    machine: &Machine,
    prepared: &[Prepared],
) -> Result<Vec<LoopFindings>, OutOfMemory>
    requires { All (IsOn machine.now) prepared.now }
    ensures { IfOk result (λ loops. AllZip (AreFindings machine.now) prepared.now loops.items) }
{
    let mut loops = Vec::with_capacity(alloc, prepared.len())?;
    for index in 0..prepared.len() {
        match add_loop(alloc, &mut loops, machine, &prepared[index]) {
            Ok(()) => {}
            Err(fault) => return Err(fault),
        }
    }
    Ok(loops)
}

/// The loops prepared for the machine, with what is found of each on the machine and on its variants, by the ratio and the ceiling of the
/// settings. The calling thread looks for all of it.
///
/// # Errors
/// The first loop with an opcode that the machine has no table for; and [`FileFault::Memory`], where memory was refused.
pub fn find_all(
    alloc: Global,
    machine: &Machine,
    loops: Vec<Loop>,
    settings: &Settings,
) -> Result<FileFindings, FileFault>
    ensures { AnswersOn (AreFound settings.now.ratio settings.now.ceiling machine.now loops.items) (first_lacking machine.now loops.items) result }
{
    let prepared = prepare_all(alloc, machine, loops, settings)?;
    let loops = find_each(alloc, machine, prepared.as_slice())?;
    Ok(FileFindings { prepared, loops })
}
