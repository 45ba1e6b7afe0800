//! What `plain` writes.

ghost use Rattle.std.specs.Prelude.{None, IfOk, IfSome};
ghost use Rattle.file_faults.specs.Answers.{AnswersOn};
ghost use Rattle.lines_of_runs.specs.Plain.{IsPlainText};
ghost use Rattle.shared_runs.specs.inner.Made.{AreMadeOf};

use crate::lines::lines_of_all;
use crate::made::{Made, made_in_order, made_of};
use crate::pool::Pool;
use crate::room::part_memory;
use crate::work::{has_more, most_alone, run_work};
use file_faults::FileFault;
use lines_of_runs::plain_text;
use listing_printouts::push_last;
use loop_data::Loop;
use machine_data::OutOfMemory;
use settings::Trip;
use shared_jobs::{parts_of, shared};
use std::alloc::Global;
use std::thread::Threads;
use text_parts::{Parted, texts_of};

/// What `plain` writes, by at most `workers` workers side by side. One worker starts no thread, and neither do loops whose
/// runs are little work. Of a loop that is more than half of a worker's share of the work, one worker makes the run. It
/// also writes lines of it while the others have work of their own. What is left then, all workers write.
///
/// # Errors
/// [`FileFault::Memory`], where the calling thread was refused memory.
pub fn plain_text_on<R: Threads + Sync>(
    rt: &R,
    alloc: Global,
    loops: &[Loop],
    trip: Trip,
    workers: usize,
) -> Result<Parted, FileFault>
    ensures { AnswersOn (IsPlainText trip loops.now) None result }
{
    // (Where memory is refused to the workers or for what they made, the calling thread may still have enough for one loop
    // after another.)
    if let Ok(Some(written)) = plain_by(rt, alloc, loops, trip, workers) {
        return Ok(written);
    }
    Ok(Parted::whole(plain_text(alloc, loops, trip)?))
}

/// What `plain` writes, by workers, of what they make of loops. It is `None` where no thread is worth its start.
fn plain_by<R: Threads + Sync>(
    rt: &R,
    alloc: Global,
    loops: &[Loop],
    trip: Trip,
    workers: usize,
) -> Result<Option<Parted>, OutOfMemory>
    ensures { IfOk result (λ written. IfSome written (IsPlainText trip loops.now)) }
{
    let alone = most_alone(loops, trip, workers);
    let Some(made) = made_by(rt, alloc, loops, trip, workers, alone)? else {
        return Ok(None);
    };
    let texts = lines_of_all(rt, alloc, loops, made, workers)?;
    let mut last = Vec::new(alloc);
    push_last(&mut last, loops.len() as u64)?;
    let texts = texts_of(alloc, texts, last)?;
    Ok(Some(Parted::of_texts(texts, true)))
}

/// What workers make of loops, or the calling thread, where there are too few loops for workers but one is more work than
/// `alone`. It is `None` where no thread is worth its start.
fn made_by<R: Threads + Sync>(
    rt: &R,
    alloc: Global,
    loops: &[Loop],
    trip: Trip,
    workers: usize,
    alone: u64,
) -> Result<Option<Vec<Made>>, OutOfMemory>
    ensures { IfOk result (λ made. IfSome made (λ all. AreMadeOf trip loops.now all.items)) }
{
    let jobs = shared(
        alloc,
        loops.len(),
        workers,
        &|number| { run_work(&loops[number], trip) },
    );
    match jobs {
        Some(jobs) => {
            part_memory(alloc, trip);
            let pool = Pool::new(workers, loops.len());
            let made = parts_of(
                rt,
                alloc,
                &jobs,
                &|number| made_of(alloc, loops, trip, alone, Some(&pool), number),
            )?;
            Ok(Some(made))
        }
        None => {
            if !has_more(loops, trip, alone) {
                return Ok(None);
            }
            Ok(Some(made_in_order(alloc, loops, trip, alone)?))
        }
    }
}
