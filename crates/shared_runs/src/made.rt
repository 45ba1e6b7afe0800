//! What workers make of loops for `plain`.

ghost use Rattle.std.specs.Prelude.{◌≡◌, ◌<◌, IfOk, length};
ghost use Rattle.loop_data.specs.Run.{HasShapeOf, opening_of, plain};
ghost use Rattle.shared_runs.specs.inner.Made.{AreMadeOf, IsMadeOf};
ghost use Rattle.shared_runs.specs.inner.Pieces.{ArePieces};

use crate::pieces::first_pieces;
use crate::pool::Pool;
use crate::work::run_work;
use lines_of_runs::{push_plain, within_limits};
use loop_data::{Loop, Memory};
use machine_data::OutOfMemory;
use plain_runs::run_plain;
use settings::Trip;
use std::alloc::Global;

/// What is made of a loop.
#[derive(Drop)]
pub(crate) enum Made {
    /// The memory that the run of the loop of this number leaves, and the first pieces of its lines. The others are still to be written.
    After(usize, Memory, Vec<Vec<u8>>),
    /// The lines of the run.
    Text(Vec<u8>),
}

/// What one worker makes of the loop of a number: the lines of its run, or where that is more work than `alone`, the memory after it
/// and, where it is one of a pool, lines for as long as no other worker has to wait for that.
pub(crate) fn made_of(
    alloc: Global,
    loops: &[Loop],
    trip: Trip,
    alone: u64,
    pool: Option<&Pool>,
    number: usize,
) -> Result<Made, OutOfMemory>
    requires { number < length loops.now }
    ensures { IfOk result (IsMadeOf trip loops.now number) }
{
    let innermost = &loops[number];
    if run_work(innermost, trip) > alone {
        let after = memory_after(alloc, innermost, trip)?;
        let begun = begun_lines(alloc, innermost, &after, pool)?;
        return Ok(Made::After(number, after, begun));
    }
    let mut text = Vec::new(alloc);
    push_plain(alloc, &mut text, innermost, trip)?;
    if let Some(pool) = pool {
        pool.end_run();
    }
    Ok(Made::Text(text))
}

/// The pieces that are written first of the lines of a run that has ended.
fn begun_lines(
    alloc: Global,
    innermost: &Loop,
    after: &Memory,
    pool: Option<&Pool>,
) -> Result<Vec<Vec<u8>>, OutOfMemory>
    requires { HasShapeOf innermost.now after.now }
    ensures { IfOk result (λ pieces. ArePieces innermost.now after.now pieces.items) }
{
    let Some(pool) = pool else {
        return Ok(Vec::new(alloc));
    };
    pool.end_run();
    first_pieces(alloc, innermost, after, pool)
}

/// The memory that a loop leaves of its opening memory.
fn memory_after(alloc: Global, innermost: &Loop, trip: Trip) -> Result<Memory, OutOfMemory>
    ensures { IfOk result (λ after. after ≡ plain innermost.now (opening_of innermost.now trip)) }
{
    within_limits(run_plain(alloc, innermost, trip.count()))
}

/// What the calling thread makes of all loops, one after another. (Nobody else is at work, so that all lines of a run of more work than
/// `alone` are left to all workers.)
pub(crate) fn made_in_order(
    alloc: Global,
    loops: &[Loop],
    trip: Trip,
    alone: u64,
) -> Result<Vec<Made>, OutOfMemory>
    ensures { IfOk result (λ made. AreMadeOf trip loops.now made.items) }
{
    let mut made = Vec::with_capacity(alloc, loops.len())?;
    for number in 0..loops.len() {
        made.push(made_of(alloc, loops, trip, alone, None, number)?)?;
    }
    Ok(made)
}
