//! In how many hundredths of the interval units are taken.

ghost use Rattle.std.specs.Prelude.{◌≡◌, ◌<◌, ◌++◌, OnOk};
ghost use Rattle.std.specs.List.{All};
ghost use Rattle.machine_data.specs.declared.limits.TheConstants.{MAX_UNITS};
ghost use Rattle.schedule_lines.specs.ScheduleTexts.{use_line, use_text};
ghost use Rattle.schedule_lines.specs.inner.Grids.{IsGrid, uses_in};

use crate::grids::columns::Column;
use crate::grids::grid::Grid;
use crate::operations::unit_name;
use figures::Takers;
use machine_data::{Machine, OutOfMemory};
use writing::{Text, push_told};

/// Appends the name of a unit and in how many hundredths of the interval it is taken, after a blank.
fn push_percent(
    text: &mut Vec<u8>,
    machine: &Machine,
    takers: &Takers,
    unit: u8,
) -> Result<(), OutOfMemory>
    requires { unit < MAX_UNITS }
    ensures ok { OnOk result (text.new.items ≡ text.old.items ++ use_text machine.now takers.now unit) }
{
    text.push_piece(" ")?;
    text.push_piece(unit_name(machine, unit))?;
    push_told(text, " ", takers.percent(unit))?;
    text.push_piece("%")
}

/// Appends the same for the units of these columns.
fn push_percents(
    text: &mut Vec<u8>,
    machine: &Machine,
    takers: &Takers,
    columns: &[Column],
) -> Result<(), OutOfMemory>
    requires { All (λ (column : _). column.unit < MAX_UNITS) columns.now }
    ensures ok { OnOk result (text.new.items ≡ text.old.items ++ uses_in machine.now takers.now columns.now) }
{
    for column in columns {
        push_percent(text, machine, takers, column.unit)?;
    }
    Ok(())
}

/// Appends the line of the units of a grid.
pub(crate) fn push_use(
    text: &mut Vec<u8>,
    machine: &Machine,
    grid: &Grid,
) -> Result<(), OutOfMemory>
    requires { IsGrid machine.now grid.now }
    ensures ok { OnOk result (text.new.items ≡ text.old.items ++ use_line machine.now grid.now.slots) }
{
    text.push_piece("use")?;
    push_percents(text, machine, grid.slots.takers(), grid.columns.as_slice())?;
    text.push_piece("\n")
}
