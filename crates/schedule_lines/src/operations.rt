//! The lines of operations.

ghost use Rattle.std.specs.Prelude.{◌≡◌, ◌<◌, ◌++◌, length, OnOk};
ghost use Rattle.std.specs.List.{flat_map};
ghost use Rattle.schedule_lines.specs.Columns.{unit_name};
ghost use Rattle.schedule_lines.specs.ScheduleTexts.{op_line, op_lines, row_text};

use figures::rows_at;
use graph_text::push_name;
use loop_schedules::Schedule;
use machine_data::{Machine, OutOfMemory, Row};
use writing::{Text, push_told};

/// The name of a unit, and nothing where the machine has no such unit.
pub(crate) fn unit_name(machine: &Machine, unit: u8) -> &str
    ensures { result.now ≡ unit_name machine.now unit }
{
    match machine.units().get(usize::from(unit)) {
        Some(name) => name.as_str(),
        None => "",
    }
}

/// Appends a row of a reservation table, after a blank.
fn push_row(text: &mut Vec<u8>, machine: &Machine, row: Row) -> Result<(), OutOfMemory>
    ensures ok { OnOk result (text.new.items ≡ text.old.items ++ row_text machine.now row) }
{
    text.push_piece(" ")?;
    text.push_piece(unit_name(machine, row.unit))?;
    push_told(text, "@", u64::from(row.offset))
}

/// Appends the rows of a reservation table, each after a blank.
fn push_rows(text: &mut Vec<u8>, machine: &Machine, rows: &[Row]) -> Result<(), OutOfMemory>
    ensures ok { OnOk result (text.new.items ≡ text.old.items ++ flat_map (row_text machine.now) rows.now) }
{
    for row in rows {
        push_row(text, machine, *row)?;
    }
    Ok(())
}

/// Appends the line of an operation with this slack.
fn push_operation(
    text: &mut Vec<u8>,
    machine: &Machine,
    schedule: &Schedule,
    op: usize,
    slack: u64,
) -> Result<(), OutOfMemory>
    requires { op < length schedule.now.problem.operations }
    ensures ok { OnOk result (text.new.items ≡ text.old.items ++ op_line machine.now schedule.now slack op) }
{
    text.push_piece("op ")?;
    push_name(text, schedule.prepared().innermost(), op as u8)?;
    push_told(text, " at ", schedule.time(op))?;
    push_told(text, " slack ", slack)?;
    text.push_piece(":")?;
    push_rows(text, machine, rows_at(schedule, op))?;
    text.push_piece("\n")
}

/// Appends the lines of the operations, each with the slack at its place.
pub(crate) fn push_operations(
    text: &mut Vec<u8>,
    machine: &Machine,
    schedule: &Schedule,
    slacks: &[u64],
) -> Result<(), OutOfMemory>
    ensures ok { OnOk result (text.new.items ≡ text.old.items ++ op_lines machine.now schedule.now slacks.now) }
{
    for op in 0..schedule.prepared().operations() {
        let slack = slacks.get(op).copied().unwrap_or(0);
        push_operation(text, machine, schedule, op, slack)?;
    }
    Ok(())
}
