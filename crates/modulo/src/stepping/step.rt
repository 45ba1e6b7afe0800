//! One step: an operation is placed, and what that evicts is taken out.

ghost use Rattle.std.specs.Prelude.{◌≡◌, ℕ, ◌+◌, ◌<◌, ◌≤◌, ◌^◌, None, length};
ghost use Rattle.mrt.specs.Placements.{alternatives_of, placement_of};
ghost use Rattle.modulo.specs.inner.Placings.{IsPlacing};
ghost use Rattle.modulo.specs.inner.Progress.{AreBelow};
ghost use Rattle.modulo.specs.Scheduling.{IsFirstSound};
ghost use Rattle.machine_data.specs.declared.limits.TheConstants.{MAX_INTERVAL};

use crate::stepping::evict::cut;
use crate::stepping::progress::Progress;
use crate::stepping::settle::settle;
use mrt::ModuloTable;
use schedules::Problem;

/// Places an operation that is not placed; `sound` is its first alternative that does not collide with
/// itself.
pub(crate) fn step<T: ModuloTable>(
    problem: &Problem,
    table: &mut T,
    progress: &mut Progress,
    op: usize,
    sound: usize,
)
    requires there { op < length problem.now.operations }
    requires operations { T.operations table.old ≡ problem.now.operations }
    requires few { T.interval table.old ≤ MAX_INTERVAL }
    requires sound { IsFirstSound (T.interval table.old) (alternatives_of problem.now.operations op) sound }
    requires whole { length (T.placed table.old) ≡ length problem.now.operations }
    requires tied { T.placed table.old ≡ progress.old.state.placed }
    requires unplaced { placement_of progress.old.state.placed op ≡ None }
    requires times { AreBelow (2 ^ 31) progress.old.state }
    ensures step { IsPlacing problem.now (T.interval table.old) progress.old.state op progress.new.state }
    ensures grown { (limit : ℕ) → AreBelow limit progress.old.state → AreBelow (limit + T.interval table.old + 65) progress.new.state }
    ensures tied { T.placed table.new ≡ progress.new.state.placed }
    ensures order { progress.new.order ≡ progress.old.order }
    ensures operations { T.operations table.new ≡ T.operations table.old }
    ensures interval { T.interval table.new ≡ T.interval table.old }
{
    let (time, alternative) = settle(problem, table, progress, op, sound);
    cut(
        problem.edges().out_of(op),
        table,
        progress,
        op,
        table.ii(),
        time,
    );
    table.claim(op, time, alternative);
    progress.place(op, time, alternative);
}
