//! Loops prepared for scheduling on a machine.

ghost use Rattle.std.specs.Prelude.{◌≡◌, ◌≤◌, [], None, vec_capacity, vec_len};
ghost use Rattle.graph.specs.TablesAnswer.{TablesAnswer};
ghost use Rattle.graph.specs.Units.{first_without_table, first_lacking, lacking_or};
ghost use Rattle.loop_schedules.specs.Problems.{IsProblemOf};
ghost use Rattle.candidates.specs.Files.{AnswersOn, Prepares};

use file_faults::FileFault;
use graph::GraphFault;
use loop_data::Loop;
use loop_schedules::Prepared;
use machine_data::Machine;
use settings::Settings;
use std::alloc::Global;

/// A loop prepared for scheduling on a machine, with the ratio and the ceiling of the settings.
///
/// # Errors
/// [`GraphFault::NoTable`] for the first statement whose opcode the machine has no table for, and
/// [`GraphFault::Memory`] where memory ran out.
pub fn prepare(
    alloc: Global,
    machine: &Machine,
    innermost: Loop,
    settings: &Settings,
) -> Result<Prepared, GraphFault>
    ensures exact { TablesAnswer (first_without_table machine.now innermost) (IsProblemOf machine.now innermost settings.now.ratio settings.now.ceiling) result }
{
    Prepared::new(
        alloc,
        machine,
        innermost,
        settings.ratio(),
        settings.ceiling(),
    )
}

/// All loops prepared, in order.
///
/// # Errors
/// The first loop with an opcode that the machine has no table for; and [`FileFault::Memory`], where memory was refused.
pub fn prepare_all(
    alloc: Global,
    machine: &Machine,
    loops: Vec<Loop>,
    settings: &Settings,
) -> Result<Vec<Prepared>, FileFault>
    ensures exact { AnswersOn (Prepares settings.now.ratio settings.now.ceiling machine.now loops.items) (first_lacking machine.now loops.items) result }
{
    match Vec::with_capacity(alloc, loops.len()) {
        Ok(prepared) => prepare_into(alloc, machine, loops, settings, prepared),
        Err(fault) => Err(FileFault::from(fault)),
    }
}

/// All loops prepared, in room that is there.
fn prepare_into(
    alloc: Global,
    machine: &Machine,
    loops: Vec<Loop>,
    settings: &Settings,
    mut prepared: Vec<Prepared>,
) -> Result<Vec<Prepared>, FileFault>
    requires room { vec_len loops ≤ vec_capacity prepared }
    requires empty { prepared.items ≡ [] }
    ensures exact { AnswersOn (Prepares settings.now.ratio settings.now.ceiling machine.now loops.items) (first_lacking machine.now loops.items) result }
{
    let mut loops = loops.into_iter();
    while let Some(innermost) = loops.next() {
        match prepare_one(alloc, machine, innermost, settings) {
            Ok(one) => prepared.push_reserved(one),
            Err(fault) => return Err(fault),
        }
    }
    Ok(prepared)
}

/// A loop prepared, or its fault.
fn prepare_one(
    alloc: Global,
    machine: &Machine,
    innermost: Loop,
    settings: &Settings,
) -> Result<Prepared, FileFault>
    ensures exact { AnswersOn (IsProblemOf machine.now innermost settings.now.ratio settings.now.ceiling) (lacking_or innermost.name (first_without_table machine.now innermost) None) result }
{
    let name = innermost.name().copied();
    match prepare(alloc, machine, innermost, settings) {
        Ok(prepared) => Ok(prepared),
        Err(GraphFault::NoTable(opcode)) => Err(FileFault::NoTable(name, opcode)),
        Err(GraphFault::Memory) => Err(FileFault::Memory),
    }
}
