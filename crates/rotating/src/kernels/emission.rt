//! The kernel of a scheduled loop.

ghost use Rattle.std.specs.Prelude.{◌≡◌, IfOk};
ghost use Rattle.loop_schedules.specs.Schedules.{IsSchedule};
ghost use Rattle.overlap.specs.Allotments.{IsAllotment, Suits};
ghost use Rattle.overlap.specs.Emission.{emitted};
ghost use Rattle.overlap.specs.Overlap.{RunsAsLoop};

use crate::kernels::lists::{array_names, outs, params};
use crate::kernels::naming::fill_numbers;
use crate::kernels::operations::operations;
use crate::kernels::preloads::preloads;
use crate::numbers::allotment::Allotment;
use kernel::{Kernel, Parts};
use loop_data::Loop;
use loop_schedules::Schedule;
use machine_data::OutOfMemory;
use machine_data::limits::MAX_STATEMENTS;
use std::alloc::Global;

/// The parts of the kernel of a schedule and an allotment.
fn parts_of(
    alloc: Global,
    innermost: &Loop,
    schedule: &Schedule,
    allotment: &Allotment,
) -> Result<Parts, OutOfMemory>
    requires { innermost.now ≡ schedule.now.problem.loop }
    ensures exact { IfOk result (λ parts. parts ≡ emitted schedule.now allotment.now) }
    ensures scheduled { IsSchedule schedule.now }
    ensures allotted { IsAllotment allotment.now }
{
    let mut numbers = [0; MAX_STATEMENTS];
    fill_numbers(schedule, allotment, &mut numbers);
    Ok(Parts {
        ii: schedule.ii(),
        stages: schedule.stages(),
        registers: allotment.registers(),
        params: params(alloc, innermost)?,
        arrays: array_names(alloc, innermost)?,
        operations: operations(alloc, schedule, allotment, &numbers)?,
        preloads: preloads(alloc, schedule, allotment, &numbers)?,
        outs: outs(alloc, schedule, allotment, &numbers)?,
    })
}

/// The kernel of a loop by a schedule of it and an allotment that is lawful for that schedule: each
/// operation in the row and the stage of its issue time, with the names of the registers that hold
/// its sources and its value in that stage; the initial values in their registers; and the names, in
/// the last turn, of the registers of the values that are live at the end.
///
/// The kernel overlaps the iterations, and leaves of each memory, for every number of iterations,
/// what the loop leaves one iteration after another. The scheme of stages and rotating names is that of
/// B. R. Rau, "Iterative modulo scheduling" (1996).
///
/// # Errors
/// [`OutOfMemory`] where memory ran out.
pub fn emit(
    alloc: Global,
    innermost: &Loop,
    schedule: &Schedule,
    allotment: &Allotment,
) -> Result<Kernel, OutOfMemory>
    requires belongs { innermost.now ≡ schedule.now.problem.loop }
    requires suits { Suits schedule.now allotment.now }
    ensures exact { IfOk result (λ k. k ≡ emitted schedule.now allotment.now) }
    ensures overlap { IfOk result (λ k. RunsAsLoop k innermost.now) }
{
    let parts = parts_of(alloc, innermost, schedule, allotment)?;
    Ok(Kernel::new(parts))
}
