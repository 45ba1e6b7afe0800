//! The modulo reservation table as a grid.

ghost use Rattle.std.specs.Prelude.{◌≡◌, ◌<◌, ◌++◌, codes, vec_len, IfOk, OnOk};
ghost use Rattle.std.specs.List.{All};
ghost use Rattle.machine_data.specs.declared.limits.TheConstants.{MAX_UNITS};
ghost use Rattle.overlap.specs.Lifetimes.{lifetimes_of};
ghost use Rattle.schedule_lines.specs.Columns.{full_mark};
ghost use Rattle.schedule_lines.specs.ScheduleTexts.{grid_text};
ghost use Rattle.schedule_lines.specs.inner.Grids.{IsGrid, cells_in, head_in, names_in, row_in};

use crate::grids::cells::{push_cell, push_padded, push_padded_number};
use crate::grids::columns::{Column, columns_of};
use crate::grids::widths::{live_width, row_width};
use crate::operations::unit_name;
use crate::slots::Slots;
use figures::{counts_of, greatest_of};
use loop_schedules::Schedule;
use machine_data::{Machine, OutOfMemory};
use rotating::Lifetime;
use std::alloc::Global;
use writing::Text;

/// What the lines of a grid are written from.
#[derive(Drop)]
pub(crate) struct Grid<'s, 'a> {
    pub(crate) slots: Slots<'s, 'a>,
    pub(crate) columns: Vec<Column>,
    /// How many registers are live in each row, and in the fullest one.
    pub(crate) counts: Vec<u64>,
    pub(crate) greatest: u64,
    /// The widths of the first and of the last column, in bytes.
    pub(crate) row_width: usize,
    pub(crate) live_width: usize,
}

/// The grid of a schedule with these lifetimes.
pub(crate) fn grid_of<'s, 'a>(
    alloc: Global,
    machine: &Machine,
    schedule: &'s Schedule<'a>,
    lives: &[Lifetime],
) -> Result<Grid<'s, 'a>, OutOfMemory>
    requires { lives.now ≡ lifetimes_of schedule.now }
    ensures grid { IfOk result (IsGrid machine.now) }
    ensures schedule { IfOk result (λ (grid : _). grid.slots ≡ schedule.now) }
{
    let slots = Slots::of(alloc, schedule)?;
    let columns = columns_of(alloc, machine, &slots)?;
    let counts = counts_of(alloc, schedule, lives)?;
    let listed = counts.as_slice();
    let greatest = greatest_of(listed);
    let live_width = live_width(listed);
    let row_width = row_width(schedule.ii());
    Ok(Grid {
        slots,
        columns,
        counts,
        greatest,
        row_width,
        live_width,
    })
}

/// Appends the names of the units of these columns.
fn push_names(text: &mut Vec<u8>, machine: &Machine, columns: &[Column]) -> Result<(), OutOfMemory>
    ensures ok { OnOk result (text.new.items ≡ text.old.items ++ names_in machine.now columns.now) }
{
    for column in columns {
        let name = unit_name(machine, column.unit);
        push_cell(text, column.width, name.as_bytes())?;
    }
    Ok(())
}

/// Appends what stands in the slots of a row, in these columns.
fn push_cells(
    text: &mut Vec<u8>,
    slots: &Slots,
    columns: &[Column],
    row: u64,
) -> Result<(), OutOfMemory>
    requires units { All (λ (column : _). column.unit < MAX_UNITS) columns.now }
    requires row { row < slots.now.ii }
    ensures ok { OnOk result (text.new.items ≡ text.old.items ++ cells_in slots.now columns.now row) }
{
    for column in columns {
        push_cell(text, column.width, slots.text(column.unit, row))?;
    }
    Ok(())
}

/// Appends the line of the columns' names.
fn push_head(text: &mut Vec<u8>, machine: &Machine, grid: &Grid) -> Result<(), OutOfMemory>
    ensures ok { OnOk result (text.new.items ≡ text.old.items ++ head_in machine.now grid.now) }
{
    push_padded(text, grid.row_width, b"row")?;
    push_names(text, machine, grid.columns.as_slice())?;
    push_cell(text, grid.live_width, b"live")?;
    text.push_piece("\n")
}

/// Appends the end of the line of a row with `count` live registers; the fullest row has `greatest`.
fn push_end(text: &mut Vec<u8>, count: u64, greatest: u64) -> Result<(), OutOfMemory>
    ensures ok { OnOk result (text.new.items ≡ text.old.items ++ (full_mark count greatest ++ codes "\n")) }
{
    if count > 0 && count == greatest {
        text.push_piece(" full")?;
    }
    text.push_piece("\n")
}

/// Appends the line of a row.
fn push_row(text: &mut Vec<u8>, grid: &Grid, row: u64) -> Result<(), OutOfMemory>
    requires units { All (λ (column : _). column.unit < MAX_UNITS) grid.now.columns.items }
    requires row { row < grid.now.slots.ii }
    requires count { row < vec_len grid.now.counts }
    ensures ok { OnOk result (text.new.items ≡ text.old.items ++ row_in grid.now row) }
{
    let count = grid.counts[row as usize];
    push_padded_number(text, grid.row_width, row)?;
    push_cells(text, &grid.slots, grid.columns.as_slice(), row)?;
    text.push_piece(" ")?;
    push_padded_number(text, grid.live_width, count)?;
    push_end(text, count, grid.greatest)
}

/// Appends the lines of the grid of a schedule.
pub(crate) fn push_grid(
    text: &mut Vec<u8>,
    machine: &Machine,
    grid: &Grid,
) -> Result<(), OutOfMemory>
    requires { IsGrid machine.now grid.now }
    ensures ok { OnOk result (text.new.items ≡ text.old.items ++ grid_text machine.now grid.now.slots) }
{
    push_head(text, machine, grid)?;
    for row in 0..grid.slots.rows() {
        push_row(text, grid, row)?;
    }
    Ok(())
}
