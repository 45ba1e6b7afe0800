//! The steps of an attempt.

ghost use Rattle.std.specs.Prelude.{◌≡◌, ℕ, ◌<◌, ◌≤◌, List, length, replicate, None, slice_index, IfOk};
ghost use Rattle.walks.specs.Walks.{AreHeights};
ghost use Rattle.mrt.specs.Placements.{alternatives_of};
ghost use Rattle.schedules.specs.Problems.{mii_of};
ghost use Rattle.modulo.specs.Scheduling.{IsFirstSound, Stops, empty};
ghost use Rattle.modulo.specs.inner.Waiting.{IsByHeight};
ghost use Rattle.machine_data.specs.declared.limits.TheConstants.{MAX_BUDGET, MAX_INTERVAL};

use crate::problem::order::by_height;
use crate::stepping::progress::Progress;
use crate::stepping::step::step;
use machine_data::OutOfMemory;
use mrt::ModuloTable;
use schedules::Problem;
use std::alloc::Global;

/// Nothing is placed, and operations are taken by their heights at an interval.
pub(crate) fn start(alloc: Global, problem: &Problem, ii: u64) -> Result<Progress, OutOfMemory>
    requires from_mii { mii_of problem.now ≤ ii }
    requires limit { ii ≤ MAX_INTERVAL }
    ensures empty { IfOk result (λ p. p.state ≡ empty (length problem.now.operations)) }
    ensures order { IfOk result (λ p. (heights : List ℕ) × AreHeights problem.now.graph ii heights × (length heights ≡ length problem.now.operations) × IsByHeight heights p.order) }
{
    let heights = walks::heights(alloc, problem.edges(), ii)?;
    Progress::new(alloc, by_height(alloc, &heights)?)
}

/// Places one operation after another, until all are placed or the budget is used up. `sound` has each
/// operation's first alternative that does not collide with itself.
pub(crate) fn run<T: ModuloTable>(
    problem: &Problem,
    table: &mut T,
    progress: &mut Progress,
    sound: &[usize],
    budget: u64,
)
    requires operations { T.operations table.old ≡ problem.now.operations }
    requires few { T.interval table.old ≤ MAX_INTERVAL }
    requires empty { T.placed table.old ≡ replicate (length problem.now.operations) None }
    requires start { progress.old.state ≡ empty (length problem.now.operations) }
    requires each { length sound.now ≡ length problem.now.operations }
    requires sound { (op : ℕ) → op < length problem.now.operations
        → IsFirstSound (T.interval table.old) (alternatives_of problem.now.operations op) (slice_index sound.now op) }
    requires budget { budget ≤ MAX_BUDGET }
    ensures whole { length progress.new.state.placed ≡ length problem.now.operations }
    ensures stops { (heights : List ℕ) → AreHeights problem.now.graph (T.interval table.old) heights → length heights ≡ length problem.now.operations
        → IsByHeight heights progress.old.order → Stops problem.now (T.interval table.old) budget progress.new.state }
    ensures operations { T.operations table.new ≡ T.operations table.old }
{
    for _step in 0..budget {
        match progress.next() {
            Some(op) => step(problem, table, progress, op, sound[op]),
            None => return,
        }
    }
}
