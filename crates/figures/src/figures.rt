//! All figures of a schedule.

ghost use Rattle.std.specs.Prelude.{IfOk};
ghost use Rattle.figures.specs.Figures.{AreFigures};

use crate::slacks::slacks_of;
use loop_schedules::Schedule;
use machine_data::OutOfMemory;
use rotating::{last_landing, least_registers};
use std::alloc::Global;

/// Figures of a schedule.
#[derive(Drop)]
pub struct Figures {
    /// How long one iteration takes, in cycles: from its beginning until its last result has landed.
    pub cycles: u64,
    /// For each operation, in text order, by how many cycles it could be issued later, all others when they are, such that
    /// each dependence is kept and the iteration takes no longer.
    pub slacks: Vec<u64>,
    /// The least number of rotating registers for which [`allot`](rotating::allot) finds an allotment; `None` where no
    /// number that a machine may have is enough.
    pub need: Option<u64>,
}

/// The figures of a schedule.
///
/// # Errors
/// [`OutOfMemory`] where memory ran out.
pub fn figures_of(alloc: Global, schedule: &Schedule) -> Result<Figures, OutOfMemory>
    ensures { IfOk result (AreFigures schedule.now) }
{
    let need = least_registers(alloc, schedule)?;
    let cycles = last_landing(schedule);
    let slacks = slacks_of(alloc, schedule, cycles)?;
    Ok(Figures {
        cycles,
        slacks,
        need,
    })
}
