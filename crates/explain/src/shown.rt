//! The schedule and the registers of a loop's kernel.

ghost use Rattle.std.specs.Prelude.{◌≡◌, ◌++◌, ℕ, List, OnOk};
ghost use Rattle.told_choices.specs.Told.{HasEvidence, choice_of};
ghost use Rattle.explain.specs.Shown.{IsShown};

use loop_schedules::Prepared;
use machine_data::{Machine, OutOfMemory};
use schedule_lines::push_schedule;
use std::alloc::Global;
use told_choices::Chosen;

/// Appends the schedule of a loop's kernel, its figures and its registers, and nothing where the loop has none.
pub(crate) fn push_shown(
    alloc: Global,
    text: &mut Vec<u8>,
    machine: &Machine,
    _prepared: &Prepared,
    chosen: &Chosen,
) -> Result<(), OutOfMemory>
    requires evidence { HasEvidence _prepared.now chosen.now }
    ensures ok { OnOk result ((part : List ℕ) × IsShown machine.now _prepared.now (choice_of chosen.now) part × (text.new.items ≡ text.old.items ++ part)) }
{
    match chosen {
        Chosen::Met(_, met, figures) => push_schedule(
            alloc,
            text,
            machine,
            &met.schedule,
            &met.allotment,
            figures,
        ),
        Chosen::Failed(_) => Ok(()),
    }
}
