//! What `run` writes of a loop whose kernel is run in two halves side by side.

ghost use Rattle.std.specs.Prelude.{◌≡◌, ◌≤◌, ◌++◌, length, IfOk, OnOk};
ghost use Rattle.machine_data.specs.declared.limits.TheConstants.{MAX_CEILING};
ghost use Rattle.candidates.specs.Choices.{IsChoice};
ghost use Rattle.loop_listings.specs.Listings.{IsRow};
ghost use Rattle.kernel.specs.Overlapped.{overlapped};
ghost use Rattle.loop_data.specs.Run.{opening_of};
ghost use Rattle.lines_of_runs.specs.Runs.{choice_lines, kernel_lines};

use candidates::{Choice, Row};
use kernel::Kernel;
use kernel_runs::{Guess, simulate_in_halves};
use lines_of_runs::{push_choice, push_run, within_limits};
use loop_data::{Initial, Loop, Memory, Operand, opening};
use loop_schedules::Prepared;
use machine_data::OutOfMemory;
use plain_runs::run_beginning;
use settings::Trip;
use std::alloc::Global;
use std::thread::Threads;

/// Appends what `run` writes of a prepared loop with its row in a listing, as [`push_choice`] does. Where it is asked for,
/// the loop's kernel is run in halves.
///
/// # Errors
/// The calling thread was refused memory. The text is left with a part of that.
pub(crate) fn push_told<R: Threads + Sync>(
    rt: &R,
    alloc: Global,
    text: &mut Vec<u8>,
    prepared: &Prepared,
    ceiling: u64,
    listed: &Row,
    trip: Trip,
    in_halves: bool,
) -> Result<(), OutOfMemory>
    requires ceiling { ceiling ≤ MAX_CEILING }
    requires row { IsRow listed.now }
    requires choice { IsChoice prepared.now listed.now.choice }
    ensures { OnOk result (text.new.items ≡ text.old.items ++ choice_lines trip ceiling prepared.now.loop listed.now listed.now.choice) }
{
    if in_halves {
        if let Choice::Met(_, kernel) = &listed.choice {
            return push_halves(rt, alloc, text, prepared.innermost(), kernel, trip);
        }
    }
    push_choice(alloc, text, prepared, ceiling, listed, trip)
}

/// Appends the lines of the run of a loop's kernel, which is run in halves.
fn push_halves<R: Threads + Sync>(
    rt: &R,
    alloc: Global,
    text: &mut Vec<u8>,
    innermost: &Loop,
    kernel: &Kernel,
    trip: Trip,
) -> Result<(), OutOfMemory>
    requires arrays { length kernel.now.arrays ≡ length innermost.now.arrays }
    requires outs { length kernel.now.outs ≡ length innermost.now.outs }
    ensures { OnOk result (text.new.items ≡ text.old.items ++ kernel_lines trip innermost.now kernel.now) }
{
    let after = left_by_halves(rt, alloc, innermost, kernel, trip)?;
    push_run(text, innermost, &after)
}

/// The memory that the two halves of the kernel's run leave of the loop's opening memory.
fn left_by_halves<R: Threads + Sync>(
    rt: &R,
    alloc: Global,
    innermost: &Loop,
    kernel: &Kernel,
    trip: Trip,
) -> Result<Memory, OutOfMemory>
    requires arrays { length kernel.now.arrays ≡ length innermost.now.arrays }
    requires outs { length kernel.now.outs ≡ length innermost.now.outs }
    ensures { IfOk result (λ after. after ≡ overlapped kernel.now (opening_of innermost.now trip)) }
{
    let before = within_limits(opening(alloc, innermost, trip.count()))?;
    within_limits(simulate_in_halves(
        rt,
        alloc,
        kernel,
        trip.count(),
        before,
        &|iterations| guess_after(alloc, innermost, trip, iterations),
    ))
}

/// Where the run of a loop's kernel would stand after so many iterations, by the loop's plain run. It is `None` where
/// there is no memory for it.
fn guess_after(alloc: Global, innermost: &Loop, trip: Trip, iterations: u64) -> Option<Guess> {
    let Ok(before) = opening(alloc, innermost, trip.count()) else {
        return None;
    };
    let Ok((memory, inits)) = run_beginning(alloc, innermost, before, iterations) else {
        return None;
    };
    let Ok(initials) = held_of(alloc, innermost, inits.as_slice()) else {
        return None;
    };
    Some(Guess { memory, initials })
}

/// Of a loop's initial values those that its kernel has in registers, in their order.
fn held_of(alloc: Global, innermost: &Loop, inits: &[Initial]) -> Result<Vec<i64>, OutOfMemory> {
    let carried = carried_by(innermost);
    let mut held = Vec::with_capacity(alloc, inits.len())?;
    for init in inits {
        if init.number <= carried[init.statement as usize] {
            held.push(init.value)?;
        }
    }
    Ok(held)
}

/// For how many iterations each value of a loop is carried on: the greatest distance at which it is read, and at least 1
/// where it is live at the end.
fn carried_by(innermost: &Loop) -> [u8; 256] {
    let mut carried = [0; 256];
    for statement in innermost.statements() {
        raise(statement.operands.as_slice(), &mut carried);
    }
    for out in innermost.outs() {
        let value = *out as usize;
        carried[value] = carried[value].max(1);
    }
    carried
}

/// Raises the entry of each value that these operands read to the distance of the read.
fn raise(operands: &[Operand], carried: &mut [u8; 256]) {
    for operand in operands {
        if let Operand::Value {
            statement,
            distance,
        } = *operand
        {
            let value = statement as usize;
            carried[value] = carried[value].max(distance);
        }
    }
}
