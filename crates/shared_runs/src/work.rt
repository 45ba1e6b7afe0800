//! How much work runs are.

use loop_data::Loop;
use settings::Trip;

/// The least work of a run that workers share, in statements that are executed once: of a kernel that is run in halves, and of a
/// loop whose lines they write together.
pub(crate) const LARGE: u64 = 1_000_000;

/// About how much work the run of a loop is, in statements that are executed once: its own, and what is written of its
/// arrays.
pub(crate) fn run_work(innermost: &Loop, trip: Trip) -> u64 {
    let steps = innermost
        .statements()
        .len()
        .saturating_add(innermost.arrays().len());
    (steps as u64).saturating_mul(trip.count())
}

/// The most work of a run that one of `workers` workers makes alone, lines and all: half of the work of each, if they shared all runs
/// evenly, but no less than what is worth sharing. There is no such limit for one worker.
pub(crate) fn most_alone(loops: &[Loop], trip: Trip, workers: usize) -> u64 {
    if workers < 2 {
        return u64::MAX;
    }
    let mut all = 0u64;
    for innermost in loops {
        all = all.saturating_add(run_work(innermost, trip));
    }
    LARGE.max(all / workers as u64 / 2)
}

/// Whether the run of some loop is more work than this.
pub(crate) fn has_more(loops: &[Loop], trip: Trip, alone: u64) -> bool {
    loops
        .iter()
        .any(|innermost| run_work(innermost, trip) > alone)
}
