//! What stands before the operations.

ghost use Rattle.std.specs.Prelude.{◌≡◌, ◌++◌, OnOk};
ghost use Rattle.candidates.specs.Choices.{last_of};
ghost use Rattle.scheduled_graphs.specs.Heads.{bounds_told, head_of, scheduled_head, unscheduled_head};

use candidates::Cause;
use graph_marks::{push_failed_label, push_met_label, push_nodes_filled, push_nodes_plain};
use loop_schedules::{Prepared, Schedule};
use machine_data::OutOfMemory;
use writing::{Text, push_both, push_told};

/// Appends the bounds, each after its word.
fn push_bounds(text: &mut Vec<u8>, prepared: &Prepared) -> Result<(), OutOfMemory>
    ensures ok { OnOk result (text.new.items ≡ text.old.items ++ bounds_told prepared.now) }
{
    push_told(text, " res ", prepared.resources())?;
    push_told(text, " rec ", prepared.recurrences())?;
    push_told(text, " mii ", prepared.mii())
}

/// Appends the loop's name, and the label up to its bounds.
fn push_head(text: &mut Vec<u8>, prepared: &Prepared) -> Result<(), OutOfMemory>
    ensures ok { OnOk result (text.new.items ≡ text.old.items ++ head_of prepared.now) }
{
    let name = prepared.innermost().name().as_str();
    push_both(text, "digraph \"", name)?;
    push_both(text, "\" {\n  label=\"", name)?;
    push_bounds(text, prepared)
}

/// Appends what stands before the operations of a loop with this schedule.
pub(crate) fn push_scheduled_head(
    text: &mut Vec<u8>,
    schedule: &Schedule,
) -> Result<(), OutOfMemory>
    ensures ok { OnOk result (text.new.items ≡ text.old.items ++ scheduled_head schedule.now) }
{
    push_head(text, schedule.prepared())?;
    push_met_label(text, schedule.ii(), schedule.stages())?;
    push_nodes_filled(text)
}

/// The last interval that is tried, in cycles.
fn last_of(prepared: &Prepared) -> u64
    ensures value { result ≡ last_of prepared.now }
{
    prepared.mii() + prepared.ceiling()
}

/// Appends what stands before the operations of a loop that has no kernel, by this cause.
pub(crate) fn push_unscheduled_head(
    text: &mut Vec<u8>,
    prepared: &Prepared,
    cause: Cause,
) -> Result<(), OutOfMemory>
    ensures ok { OnOk result (text.new.items ≡ text.old.items ++ unscheduled_head prepared.now cause) }
{
    push_head(text, prepared)?;
    push_failed_label(text, last_of(prepared), cause.word())?;
    push_nodes_plain(text)
}
