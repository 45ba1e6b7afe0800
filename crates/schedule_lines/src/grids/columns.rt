//! The columns of the units that operations take.

ghost use Rattle.std.specs.Prelude.{◌≡◌, ◌<◌, IfOk};
ghost use Rattle.std.specs.List.{All};
ghost use Rattle.machine_data.specs.declared.limits.TheConstants.{MAX_UNITS};
ghost use Rattle.schedule_lines.specs.Columns.{unit_width};
ghost use Rattle.schedule_lines.specs.inner.Grids.{columns_in};

use crate::operations::unit_name;
use crate::slots::Slots;
use machine_data::{Machine, OutOfMemory};
use std::alloc::Global;

/// The column of a unit.
#[derive(Clone, Copy)]
pub(crate) struct Column {
    pub(crate) unit: u8,
    /// Its width, in bytes.
    pub(crate) width: usize,
}

/// The width of the column of a unit.
fn unit_width(machine: &Machine, slots: &Slots, unit: u8) -> usize
    requires { unit < MAX_UNITS }
    ensures { result ≡ unit_width machine.now slots.now unit }
{
    let mut width = unit_name(machine, unit).len();
    for row in 0..slots.rows() {
        width = width.max(slots.text(unit, row).len());
    }
    width
}

/// The columns of the units that operations take, in the machine's order.
pub(crate) fn columns_of(
    alloc: Global,
    machine: &Machine,
    slots: &Slots,
) -> Result<Vec<Column>, OutOfMemory>
    ensures columns { IfOk result (λ columns. columns.items ≡ columns_in machine.now slots.now) }
    ensures few { IfOk result (λ columns. All (λ (column : _). column.unit < MAX_UNITS) columns.items) }
{
    let units = slots.takers().units(alloc, machine)?;
    let mut columns = Vec::with_capacity(alloc, units.len())?;
    for unit in units.as_slice() {
        let width = unit_width(machine, slots, *unit);
        columns.push(Column { unit: *unit, width })?;
    }
    Ok(columns)
}
