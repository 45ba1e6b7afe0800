//! What `plain` writes.

ghost use Rattle.std.specs.Prelude.{◌≡◌, ◌++◌, OnOk, None};
ghost use Rattle.std.specs.List.{flat_map};
ghost use Rattle.file_faults.specs.Answers.{AnswersOn};
ghost use Rattle.lines_of_runs.specs.Plain.{IsPlainText, plain_lines};

use crate::runs::{push_run, within_limits};
use file_faults::FileFault;
use listing_printouts::push_last;
use loop_data::Loop;
use machine_data::OutOfMemory;
use plain_runs::run_plain;
use settings::Trip;
use std::alloc::Global;
use written::Printout;

/// What `plain` writes.
pub fn plain_text(alloc: Global, loops: &[Loop], trip: Trip) -> Result<Printout, FileFault>
    ensures { AnswersOn (IsPlainText trip loops.now) None result }
{
    let mut text = Vec::new(alloc);
    push_loops(alloc, &mut text, loops, trip)?;
    push_last(&mut text, loops.len() as u64)?;
    Ok(Printout::new(text, true))
}

/// Appends the lines of all loops, in order.
fn push_loops(
    alloc: Global,
    text: &mut Vec<u8>,
    loops: &[Loop],
    trip: Trip,
) -> Result<(), OutOfMemory>
    ensures { OnOk result (text.new.items ≡ text.old.items ++ flat_map (plain_lines trip) loops.now) }
{
    for innermost in loops {
        push_plain(alloc, text, innermost, trip)?;
    }
    Ok(())
}

/// Appends what `plain` writes of a loop: the lines of its plain run.
///
/// # Errors
/// Memory was refused. The text is left with a part of that.
pub fn push_plain(
    alloc: Global,
    text: &mut Vec<u8>,
    innermost: &Loop,
    trip: Trip,
) -> Result<(), OutOfMemory>
    ensures { OnOk result (text.new.items ≡ text.old.items ++ plain_lines trip innermost.now) }
{
    let after = within_limits(run_plain(alloc, innermost, trip.count()))?;
    push_run(text, innermost, &after)
}
