//! A loop's choice, from what is known of its intervals.
ghost use Rattle.std.specs.Prelude.{◌≡◌, ◌<◌, ◌≤◌, ◌+◌, length, None, IfOk, if◌then◌else◌};
ghost use Rattle.std.specs.List.{slice_set};
ghost use Rattle.loop_schedules.specs.Problems.{mii_of};
ghost use Rattle.candidates.specs.Outcomes.{Gives};
ghost use Rattle.candidates.specs.Choices.{IsChoice};
ghost use Rattle.reports.specs.Gathered.{tried};
ghost use Rattle.collecting.specs.inner.Cells.{AreCellsOf, IsTrueCell, known_at, empty_from, is_full};

use crate::cells::{LoopCells, Settled};
use candidates::{Cause, Choice, Outcome, Trials};
use loop_schedules::Prepared;
use machine_data::OutOfMemory;
use std::alloc::Global;

/// What the interval gives, as its cell says or else by trying it, and how often it was tried.
fn settle(
    alloc: Global,
    prepared: &Prepared,
    trials: &mut Trials<'_>,
    row: &mut LoopCells,
    above: u64,
) -> Result<(Outcome, u64), OutOfMemory>
    requires its_loop { trials.old ≡ prepared.now }
    requires inside { above < length row.old.cells.items }
    requires ceiling { above ≤ prepared.now.ceiling }
    requires truth { IsTrueCell prepared.now (mii_of prepared.now + above) (known_at row.old.cells.items above) }
    ensures same_loop { trials.new ≡ trials.old }
    ensures row { row.new.cells.items ≡ slice_set row.old.cells.items above None }
    ensures gives { IfOk result (λ r. Gives prepared.now (mii_of prepared.now + above) r.0) }
    ensures tries { IfOk result (λ r. r.1 ≡ (if is_full (known_at row.old.cells.items above) then 0 else 1)) }
{
    let ii = prepared.mii() + above;
    match row.take(above as usize) {
        Some(Settled::Won(kernel)) => Ok((Outcome::Met(Box::into_inner(kernel)), 0)),
        Some(Settled::Failed(cause)) => Ok((Outcome::Failed(cause), 0)),
        None => Ok((trials.try_interval(alloc, ii)?, 1)),
    }
}

/// The loop's choice, and how many intervals were tried for it.
pub(crate) fn climb(
    alloc: Global,
    prepared: &Prepared,
    row: &mut LoopCells,
) -> Result<(Choice, u64), OutOfMemory>
    requires row { AreCellsOf prepared.now row.old }
    ensures choice { IfOk result (λ r. IsChoice prepared.now r.0) }
    ensures retried { IfOk result (λ r. r.1 ≡ empty_from row.old.cells.items 0 (tried prepared.now r.0)) }
    ensures few { IfOk result (λ r. r.1 ≤ 256) }
{
    let mut trials = Trials::of(prepared);
    let mut retried = 0;
    let mut last = Cause::Table;
    for above in 0..prepared.ceiling() + 1 {
        let (outcome, tries) = match settle(alloc, prepared, &mut trials, row, above) {
            Ok(settled) => settled,
            Err(fault) => return Err(fault),
        };
        retried += tries;
        match outcome {
            Outcome::Met(kernel) => {
                return Ok((Choice::Met(prepared.mii() + above, kernel), retried));
            }
            Outcome::Failed(cause) => last = cause,
        }
    }
    Ok((Choice::Failed(last), retried))
}
