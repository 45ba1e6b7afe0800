//! Where the memory of arrays comes from.

use machine_data::OutOfMemory;
use machine_data::limits::MAX_SUBSCRIPT;
use settings::Trip;
use std::alloc::Global;

/// How many cells an array has beside one for each iteration: as many on both sides as a subscript may add or take away.
const BESIDE: usize = 2 * MAX_SUBSCRIPT as usize;

/// Takes as much memory as an array of a run has, and gives it back, before workers run loops. From this the GNU C library learns to take
/// such memory from a part that each thread has for itself. At first it takes pages for each array that lie beside those of other arrays.
/// One table has the entries of up to 512 pages, and workers that touch such pages for the first time wait for one another.
pub(crate) fn part_memory(alloc: Global, trip: Trip) {
    let cells = (trip.count() as usize).saturating_add(BESIDE);
    let room: Result<Vec<i64>, OutOfMemory> = Vec::with_capacity(alloc, cells);
    drop(room);
}
