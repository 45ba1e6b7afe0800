//! Where the next operation is placed, in a free slot or by force.

ghost use Rattle.std.specs.Prelude.{◌≡◌, ℕ, ◌+◌, ◌<◌, ◌≤◌, ◌^◌, length};
ghost use Rattle.mrt.specs.Placements.{alternatives_of, rows_of, IsFree, IsMetBy};
ghost use Rattle.modulo.specs.inner.Evictions.{StaysOr};
ghost use Rattle.modulo.specs.inner.Progress.{AreBelow};
ghost use Rattle.modulo.specs.Scheduling.{IsFirstSound, IsPlacement};
ghost use Rattle.machine_data.specs.declared.limits.TheConstants.{MAX_INTERVAL};

use crate::stepping::evict::clear;
use crate::stepping::place::{earliest, forced};
use crate::stepping::progress::Progress;
use mrt::ModuloTable;
use schedules::Problem;

/// When and by which alternative an operation is issued; what holds a slot of its rows then, where
/// that is by force, is taken out.
pub(crate) fn settle<T: ModuloTable>(
    problem: &Problem,
    table: &mut T,
    progress: &mut Progress,
    op: usize,
    sound: usize,
) -> (u64, usize)
    requires there { op < length problem.now.operations }
    requires operations { T.operations table.old ≡ problem.now.operations }
    requires few { T.interval table.old ≤ MAX_INTERVAL }
    requires sound { IsFirstSound (T.interval table.old) (alternatives_of problem.now.operations op) sound }
    requires whole { length (T.placed table.old) ≡ length problem.now.operations }
    requires tied { T.placed table.old ≡ progress.old.state.placed }
    requires times { AreBelow (2 ^ 31) progress.old.state }
    ensures place { IsPlacement problem.now (T.interval table.old) progress.old.state op (record { time = result.0; alternative = result.1 }) }
    ensures free { IsFree (T.interval table.old) problem.now.operations (T.placed table.new) op result.0 result.1 }
    ensures each { (q : ℕ) → StaysOr (T.placed table.old) (T.placed table.new)
        (IsMetBy (T.interval table.old) problem.now.operations (T.placed table.old) (rows_of problem.now.operations op result.1) result.0) q }
    ensures below { result.0 < 2 ^ 32 }
    ensures grown { (limit : ℕ) → AreBelow limit progress.old.state → result.0 < limit + T.interval table.old + 65 }
    ensures whole { length (T.placed table.new) ≡ length (T.placed table.old) }
    ensures tied { T.placed table.new ≡ progress.new.state.placed }
    ensures previous { progress.new.state.previous ≡ progress.old.state.previous }
    ensures order { progress.new.order ≡ progress.old.order }
    ensures operations { T.operations table.new ≡ T.operations table.old }
    ensures interval { T.interval table.new ≡ T.interval table.old }
{
    let start = earliest(problem, progress, op, table.ii());
    if let Some(slot) = table.first_free(op, start) {
        return slot;
    }
    let time = forced(progress.last(op), start);
    let rows = problem.alternatives()[op].as_slice()[sound].rows().len();
    clear(table, progress, op, time, sound, rows);
    (time, sound)
}
