//! The text of a schedule.

ghost use Rattle.std.specs.Prelude.{◌≡◌, ◌++◌, ◌-◌, OnOk};
ghost use Rattle.loop_schedules.specs.Schedules.{stages_of};
ghost use Rattle.overlap.specs.Allotments.{Suits};
ghost use Rattle.schedule_lines.specs.ScheduleTexts.{idle_line, iteration_line, op_lines, schedule_text, turns_line};
ghost use Rattle.schedule_lines.specs.inner.Grids.{IsGrid, table_text};

use crate::figure_lines::{push_iteration, push_need_line, push_turns};
use crate::grids::grid::{Grid, grid_of, push_grid};
use crate::grids::uses::push_use;
use crate::operations::push_operations;
use crate::values::push_values;
use figures::Figures;
use loop_schedules::Schedule;
use machine_data::{Machine, OutOfMemory};
use rotating::{Allotment, lifetimes};
use std::alloc::Global;
use writing::{Text, push_told};

/// Appends how long an iteration takes, how many turns a run has, and the lines of the operations.
fn push_start(
    text: &mut Vec<u8>,
    machine: &Machine,
    schedule: &Schedule,
    figures: &Figures,
) -> Result<(), OutOfMemory>
    ensures ok { OnOk result (text.new.items ≡ text.old.items ++ (iteration_line figures.now.cycles ++ (turns_line (stages_of schedule.now - 1) ++ op_lines machine.now schedule.now figures.now.slacks.items))) }
{
    push_iteration(text, figures.cycles)?;
    push_turns(text, schedule.stages() - 1)?;
    push_operations(text, machine, schedule, figures.slacks.as_slice())
}

/// Appends how many units no operation takes, where there are any.
fn push_idle(text: &mut Vec<u8>, idle: usize) -> Result<(), OutOfMemory>
    ensures ok { OnOk result (text.new.items ≡ text.old.items ++ idle_line idle) }
{
    if idle == 0 {
        return Ok(());
    }
    push_told(text, "idle units ", idle as u64)?;
    text.push_piece("\n")
}

/// Appends a grid, how much of the interval its units are taken, and how many units it leaves out.
fn push_table(text: &mut Vec<u8>, machine: &Machine, grid: &Grid) -> Result<(), OutOfMemory>
    requires { IsGrid machine.now grid.now }
    ensures ok { OnOk result (text.new.items ≡ text.old.items ++ table_text machine.now grid.now.slots) }
{
    push_grid(text, machine, grid)?;
    push_use(text, machine, grid)?;
    let idle = machine.units().len() - grid.columns.len();
    push_idle(text, idle)
}

/// Appends a schedule: its figures, when each operation is issued and each value lives, and the schedule as a grid.
///
/// The first lines are `iteration C cycles`, how long an iteration takes, and `N iterations take N+D turns`, where the
/// letter N stands as it is and D is one less than the stages. Each operation has a line `op NAME at T slack K: U@O ..`,
/// with its time in cycles from the beginning of its iteration, its slack, and the rows of the alternative by which it is
/// issued. Each value has a line `value NAME lives F to L register K`, with the first and the last cycle in which it
/// lives in iteration 0 and the number of its register. `registers need N` tells the least number of registers. The grid
/// has a line for each row of the modulo reservation table: in the column of a unit stands the operation that takes it in
/// that row, with its stage after a slash, or a dot; in the last column how many registers hold a value then, with `full`
/// where they are the most. Units that no operation takes are left out. The line `use U P% ..` tells in how many
/// hundredths of the interval each of the others is taken, rounded down, and a last line `idle units N` counts those that
/// are left out where there are any. Each cell stands to the right in its column. Widths are counted in bytes, so where a
/// name has characters of several bytes its column looks narrower.
///
/// The schedule is of a loop on this machine; of another one the names of units would be wrong. The figures are those of
/// the schedule; an operation that they have no slack for is told with 0.
///
/// # Errors
/// [`OutOfMemory`] where memory ran out. The text is left with a part of all that.
pub fn push_schedule(
    alloc: Global,
    text: &mut Vec<u8>,
    machine: &Machine,
    schedule: &Schedule,
    allotment: &Allotment,
    figures: &Figures,
) -> Result<(), OutOfMemory>
    requires suits { Suits schedule.now allotment.now }
    ensures ok { OnOk result (text.new.items ≡ text.old.items ++ schedule_text machine.now schedule.now allotment.now figures.now) }
{
    let lives = lifetimes(alloc, schedule)?;
    let listed = lives.as_slice();
    let grid = grid_of(alloc, machine, schedule, listed)?;
    push_start(text, machine, schedule, figures)?;
    push_values(text, schedule, listed, allotment.numbers())?;
    push_need_line(text, figures.need)?;
    push_table(text, machine, &grid)?;
    Ok(())
}
