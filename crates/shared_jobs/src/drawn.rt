//! Workers that draw jobs one after another and make their parts.

ghost use Rattle.std.specs.Prelude.{◌≡◌, ◌<◌, ℕ, length};
ghost use Rattle.std.specs.List.{All};
ghost use Rattle.shared_jobs.specs.inner.Slots.{IsMadeBelow};

use crate::jobs::Job;
use machine_data::OutOfMemory;
use std::alloc::Global;
use std::sync::atomic::{AtomicUsize, Ordering};
use std::thread::Threads;
use thread_calls::call_in_threads;

/// A part, and its number.
#[derive(Drop)]
pub(crate) struct Made<T> {
    pub(crate) number: usize,
    pub(crate) part: T,
}

/// What `workers` workers make together, each in a thread where one can be started. Each draws jobs until none is left,
/// or until it is refused memory: what is then lacking is left to the calling thread.
pub(crate) fn made_by_all<
    R: Threads + Sync,
    T: Drop + Send,
    F: Fn(usize) -> Result<T, OutOfMemory> + Sync,
>(rt: &R, alloc: Global, workers: usize, jobs: &[Job], make: &F) -> Vec<Vec<Made<T>>>
    requires within { All (λ (j : _). j.number < length jobs.now) jobs.now }
    requires accepts { (k : ℕ) → k < length jobs.now → F.pre make.now k }
    ensures { All (λ (one : _). All (IsMadeBelow F.Fn make.now (length jobs.now)) one.items) result.items }
{
    let next = AtomicUsize::new(0);
    let drawn = &next;
    let made = call_in_threads(
        rt,
        alloc,
        workers,
        &|_| made_by_one(alloc, drawn, jobs, make),
    );
    match made {
        Ok(made) => made,
        Err(_) => Vec::new(alloc),
    }
}

/// What one worker makes.
fn made_by_one<T: Drop, F: Fn(usize) -> Result<T, OutOfMemory>>(
    alloc: Global,
    next: &AtomicUsize,
    jobs: &[Job],
    make: &F,
) -> Vec<Made<T>>
    requires within { All (λ (j : _). j.number < length jobs.now) jobs.now }
    requires accepts { (k : ℕ) → k < length jobs.now → F.pre make.now k }
    ensures { All (IsMadeBelow F.Fn make.now (length jobs.now)) result.items }
{
    let mut made = Vec::new(alloc);
    for _ in 0..jobs.len() {
        let place = next.fetch_add(1, Ordering::SeqCst);
        if place >= jobs.len() {
            break;
        }
        if add_made(&mut made, jobs, place, make).is_err() {
            break;
        }
    }
    made
}

/// Makes the part of the job at a place, and adds it.
fn add_made<T: Drop, F: Fn(usize) -> Result<T, OutOfMemory>>(
    made: &mut Vec<Made<T>>,
    jobs: &[Job],
    place: usize,
    make: &F,
) -> Result<(), OutOfMemory>
    requires place { place < length jobs.now }
    requires within { All (λ (j : _). j.number < length jobs.now) jobs.now }
    requires accepts { (k : ℕ) → k < length jobs.now → F.pre make.now k }
    requires others { All (IsMadeBelow F.Fn make.now (length jobs.now)) made.old.items }
    ensures { All (IsMadeBelow F.Fn make.now (length jobs.now)) made.new.items }
{
    let number = jobs[place].number;
    let part = make(number)?;
    made.push(Made { number, part })?;
    Ok(())
}
