//! The lines of values.

ghost use Rattle.std.specs.Prelude.{◌≡◌, ◌<◌, ◌++◌, length, OnOk};
ghost use Rattle.overlap.specs.Lifetimes.{lifetimes_of};
ghost use Rattle.schedule_lines.specs.ScheduleTexts.{value_line, value_lines};

use graph_text::push_name;
use loop_data::Loop;
use loop_schedules::Schedule;
use machine_data::OutOfMemory;
use rotating::Lifetime;
use writing::{Text, push_told};

/// Appends the line of a value with this lifetime and the number of its register.
fn push_value(
    text: &mut Vec<u8>,
    innermost: &Loop,
    life: Lifetime,
    number: usize,
) -> Result<(), OutOfMemory>
    requires { life.operation < length innermost.now.statements }
    ensures ok { OnOk result (text.new.items ≡ text.old.items ++ value_line innermost.now life number) }
{
    text.push_piece("value ")?;
    push_name(text, innermost, life.operation)?;
    push_told(text, " lives ", life.first)?;
    push_told(text, " to ", life.last)?;
    push_told(text, " register ", number as u64)?;
    text.push_piece("\n")
}

/// Appends the lines of values, each with the number at its place.
pub(crate) fn push_values(
    text: &mut Vec<u8>,
    schedule: &Schedule,
    lives: &[Lifetime],
    numbers: &[usize],
) -> Result<(), OutOfMemory>
    requires lives { lives.now ≡ lifetimes_of schedule.now }
    requires each { length numbers.now ≡ length lives.now }
    ensures ok { OnOk result (text.new.items ≡ text.old.items ++ value_lines schedule.now.problem.loop lives.now numbers.now) }
{
    let innermost = schedule.prepared().innermost();
    for k in 0..lives.len() {
        push_value(text, innermost, lives[k], numbers[k])?;
    }
    Ok(())
}
