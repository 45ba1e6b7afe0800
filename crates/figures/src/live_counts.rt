//! How many registers are live in each row.

ghost use Rattle.std.specs.Prelude.{◌≡◌, IfOk};
ghost use Rattle.unit_bound.specs.Units.{greatest_of};
ghost use Rattle.overlap.specs.Lifetimes.{lifetimes_of};
ghost use Rattle.figures.specs.LiveCounts.{live_counts};

use loop_schedules::Schedule;
use machine_data::OutOfMemory;
use rotating::{Lifetime, live_in};
use std::alloc::Global;

/// How many registers hold a value in each row; the lifetimes are those of the schedule.
///
/// # Errors
/// [`OutOfMemory`] where memory ran out.
pub fn counts_of(
    alloc: Global,
    schedule: &Schedule,
    lives: &[Lifetime],
) -> Result<Vec<u64>, OutOfMemory>
    requires { lives.now ≡ lifetimes_of schedule.now }
    ensures { IfOk result (λ counts. counts.items ≡ live_counts schedule.now) }
{
    let mut counts = Vec::with_capacity(alloc, schedule.ii() as usize)?;
    for row in 0..schedule.ii() {
        counts.push(live_in(schedule, lives, row))?;
    }
    Ok(counts)
}

/// The greatest of the numbers, 0 where there are none.
pub fn greatest_of(counts: &[u64]) -> u64
    ensures { result ≡ greatest_of counts.now }
{
    let mut greatest = 0;
    for count in counts {
        greatest = greatest.max(*count);
    }
    greatest
}
