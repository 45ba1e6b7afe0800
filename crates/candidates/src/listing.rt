//! The listing of loops, by the calling thread alone.

ghost use Rattle.std.specs.Prelude.{IfOk};
ghost use Rattle.std.specs.List.{AllZip};
ghost use Rattle.graph.specs.Units.{first_lacking};
ghost use Rattle.candidates.specs.Choices.{IsChoice};
ghost use Rattle.candidates.specs.Files.{AnswersOn, HaveCeiling, ListsProblems, PreparesAndLists};

use crate::choices::first_success;
use crate::preparing::prepare_all;
use file_faults::FileFault;
use loop_data::Loop;
use loop_listings::{Choice, Listing};
use loop_schedules::Prepared;
use machine_data::{Machine, OutOfMemory};
use settings::Settings;
use std::alloc::Global;

/// What loops give on a machine: each loop prepared, and the listing of these loops. The calling thread tries the intervals of each
/// loop one after another, from the least one on.
///
/// # Errors
/// The first loop with an opcode that the machine has no table for; and [`FileFault::Memory`], where memory was refused.
pub fn pipeline_alone(
    alloc: Global,
    machine: &Machine,
    loops: Vec<Loop>,
    settings: &Settings,
) -> Result<(Vec<Prepared>, Listing), FileFault>
    ensures exact { AnswersOn (PreparesAndLists settings.now.ratio settings.now.ceiling machine.now loops.items) (first_lacking machine.now loops.items) result }
{
    match prepare_all(alloc, machine, loops, settings) {
        Ok(prepared) => match list_alone(alloc, prepared.as_slice(), settings) {
            Ok(listing) => Ok((prepared, listing)),
            Err(fault) => Err(FileFault::from(fault)),
        },
        Err(fault) => Err(fault),
    }
}

/// The listing of prepared loops.
fn list_alone(
    alloc: Global,
    loops: &[Prepared],
    settings: &Settings,
) -> Result<Listing, OutOfMemory>
    requires ceilings { HaveCeiling settings.now.ceiling loops.now }
    ensures { IfOk result (ListsProblems settings.now.ceiling loops.now) }
{
    let choices = choices_of(alloc, loops)?;
    list_choices(alloc, loops, choices, settings)
}

/// The choice of each prepared loop, whose intervals the calling thread tries one after another, from the least one on.
///
/// # Errors
/// Memory was refused.
pub fn choices_of(alloc: Global, loops: &[Prepared]) -> Result<Vec<Choice>, OutOfMemory>
    ensures { IfOk result (λ choices. AllZip IsChoice loops.now choices.items) }
{
    let mut choices = Vec::with_capacity(alloc, loops.len())?;
    for prepared in loops {
        match first_success(alloc, prepared) {
            Ok(choice) => choices.push_reserved(choice),
            Err(fault) => return Err(fault),
        }
    }
    Ok(choices)
}

/// The listing of prepared loops with the choice of each.
///
/// # Errors
/// Memory was refused.
pub fn list_choices(
    alloc: Global,
    loops: &[Prepared],
    choices: Vec<Choice>,
    settings: &Settings,
) -> Result<Listing, OutOfMemory>
    requires ceilings { HaveCeiling settings.now.ceiling loops.now }
    requires choices { AllZip IsChoice loops.now choices.items }
    ensures { IfOk result (ListsProblems settings.now.ceiling loops.now) }
{
    Listing::of(alloc, settings.ceiling() as u8, loops, choices)
}
