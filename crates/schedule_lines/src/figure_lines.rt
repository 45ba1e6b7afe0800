//! The lines of a schedule's figures.

ghost use Rattle.std.specs.Prelude.{◌≡◌, ◌++◌, OnOk};
ghost use Rattle.schedule_lines.specs.ScheduleTexts.{iteration_line, need_line, need_word, turns_line};

use machine_data::OutOfMemory;
use writing::{Text, push_number, push_told};

/// Appends how long an iteration takes, in cycles.
pub(crate) fn push_iteration(text: &mut Vec<u8>, cycles: u64) -> Result<(), OutOfMemory>
    ensures ok { OnOk result (text.new.items ≡ text.old.items ++ iteration_line cycles) }
{
    push_told(text, "iteration ", cycles)?;
    text.push_piece(" cycles\n")
}

/// Appends how many turns more than iterations a run has.
pub(crate) fn push_turns(text: &mut Vec<u8>, more: u64) -> Result<(), OutOfMemory>
    ensures ok { OnOk result (text.new.items ≡ text.old.items ++ turns_line more) }
{
    push_told(text, "N iterations take N+", more)?;
    text.push_piece(" turns\n")
}

/// Appends a least number of registers, or `more than 256` where there is none.
///
/// # Errors
/// [`OutOfMemory`] where memory ran out.
pub fn push_need(text: &mut Vec<u8>, need: Option<u64>) -> Result<(), OutOfMemory>
    ensures ok { OnOk result (text.new.items ≡ text.old.items ++ need_word need) }
{
    match need {
        Some(registers) => push_number(text, registers),
        None => text.push_piece("more than 256"),
    }
}

/// Appends the line of the least number of registers.
pub(crate) fn push_need_line(text: &mut Vec<u8>, need: Option<u64>) -> Result<(), OutOfMemory>
    ensures ok { OnOk result (text.new.items ≡ text.old.items ++ need_line need) }
{
    text.push_piece("registers need ")?;
    push_need(text, need)?;
    text.push_piece("\n")
}
