//! The graphs of loops with their schedules, one after another.

ghost use Rattle.std.specs.Prelude.{◌≡◌, ◌&&◌, ◌++◌, ℕ, List, IfOk};
ghost use Rattle.graph.specs.Units.{first_lacking};
ghost use Rattle.loop_listings.specs.Listings.{is_met};
ghost use Rattle.file_faults.specs.Answers.{AnswersOn};
ghost use Rattle.scheduled_printouts.specs.Graphs.{AreDrawn, AreScheduledGraphs, DrawnData, IsDrawn};

use crate::tries::{is_met, last_tried};
use candidates::prepare_all;
use file_faults::FileFault;
use loop_data::Loop;
use loop_schedules::Prepared;
use machine::{Machine, OutOfMemory};
use scheduled_graphs::push_drawn;
use settings::Settings;
use std::alloc::Global;
use written::Printout;

/// What `dot --scheduled` prints.
///
/// # Errors
/// The first loop with an opcode that the machine has no table for; and [`FileFault::Memory`], where memory was refused.
pub fn scheduled_text(
    alloc: Global,
    machine: &Machine,
    loops: Vec<Loop>,
    settings: &Settings,
) -> Result<Printout, FileFault>
    ensures { AnswersOn (AreScheduledGraphs settings.now.ratio settings.now.ceiling machine.now loops.items) (first_lacking machine.now loops.items) result }
{
    let prepared = prepare_all(alloc, machine, loops, settings)?;
    let printout = graphs_of(alloc, prepared.as_slice())?;
    Ok(printout)
}

/// The graphs of loops.
fn graphs_of(alloc: Global, prepared: &[Prepared]) -> Result<Printout, OutOfMemory>
    ensures { IfOk result (λ w. AreDrawn prepared.now w.text w.all_met) }
{
    let mut text = Vec::new(alloc);
    let all_met = push_all(alloc, &mut text, prepared)?;
    Ok(Printout::new(text, all_met))
}

/// Whether two things are so.
fn both(one: bool, other: bool) -> bool
    ensures { result ≡ one && other }
{
    one && other
}

/// Appends the graphs of loops, and tells whether each loop has a kernel.
fn push_all(alloc: Global, text: &mut Vec<u8>, prepared: &[Prepared]) -> Result<bool, OutOfMemory>
    ensures { IfOk result (λ met. (part : List ℕ) × AreDrawn prepared.now part met × (text.new.items ≡ text.old.items ++ part)) }
{
    let mut all_met = true;
    for one in prepared {
        let met = push_graph(alloc, text, one)?;
        all_met = both(all_met, met);
    }
    Ok(all_met)
}

/// Appends what `dot --scheduled` prints of a loop: its graph with the schedule of its kernel, or with why it has none, by its intervals
/// that are tried one after another. It tells whether the loop has a kernel.
///
/// # Errors
/// Memory was refused. The text is left with a part of that.
pub fn push_graph(
    alloc: Global,
    text: &mut Vec<u8>,
    prepared: &Prepared,
) -> Result<bool, OutOfMemory>
    ensures { IfOk result (λ met. (drawn : DrawnData) × IsDrawn prepared.now drawn × (met ≡ is_met drawn.choice) × (text.new.items ≡ text.old.items ++ drawn.text)) }
{
    let tried = last_tried(alloc, prepared)?;
    push_drawn(alloc, text, prepared, &tried)?;
    Ok(is_met(&tried))
}
