//! What is known of each interval.
ghost use Rattle.std.specs.Prelude.{◌≡◌, ◌<◌, ◌+◌, ◌||◌, ℕ, length, None, Some, IfOk, replicate};
ghost use Rattle.std.specs.List.{All, AllZip, list_any, slice_set};
ghost use Rattle.reports.specs.Entries.{IsEntry, is_settled_in, settles, mii_at};
ghost use Rattle.collecting.specs.inner.Cells.{AddsEmpty, AreEmptyCells, AreCellsOf, known_at, known_in, is_full, kept_of};

use candidates::Cause;
use kernel::Kernel;
use loop_schedules::Prepared;
use machine_data::OutOfMemory;
use reports::{Entry, Found, Report};
use std::alloc::Global;

/// What an interval is known to give.
#[derive(Drop)]
pub(crate) enum Settled {
    /// This kernel.
    Won(Box<Kernel>),
    /// None, and why.
    Failed(Cause),
}

/// A cell for each interval of a loop.
#[derive(Drop)]
pub(crate) struct LoopCells {
    pub(crate) cells: Vec<Option<Settled>>,
}

impl LoopCells {
    /// `count` empty cells.
    fn empty(alloc: Global, count: usize) -> Result<LoopCells, OutOfMemory>
        ensures { IfOk result (λ r. r.cells.items ≡ replicate count None) }
    {
        let mut row = LoopCells {
            cells: Vec::with_capacity(alloc, count)?,
        };
        for _ in 0..count {
            if let Err(fault) = row.cells.push(None) {
                return Err(fault.into());
            }
        }
        Ok(row)
    }

    /// What the cell has, which is empty from then on.
    pub(crate) fn take(&mut self, above: usize) -> Option<Settled>
        requires { above < length self.old.cells.items }
        ensures was { result ≡ known_at self.old.cells.items above }
        ensures new { self.new.cells.items ≡ slice_set self.old.cells.items above None }
    {
        self.cells[above].take()
    }

    /// Fills the cell.
    fn put(&mut self, above: usize, settled: Settled)
        requires { above < length self.old.cells.items }
        ensures { self.new.cells.items ≡ slice_set self.old.cells.items above (Some settled) }
    {
        self.cells[above] = Some(settled);
    }
}

/// Adds a row for a loop of which nothing is known.
fn add_cells(
    alloc: Global,
    rows: &mut Vec<LoopCells>,
    prepared: &Prepared,
) -> Result<(), OutOfMemory>
    ensures { IfOk result (λ _. AddsEmpty prepared.now rows.old.items rows.new.items) }
{
    let row = LoopCells::empty(alloc, prepared.ceiling() as usize + 1)?;
    rows.push(row)?;
    Ok(())
}

/// A row for each loop, of which nothing is known.
pub(crate) fn empty_cells(alloc: Global, loops: &[Prepared]) -> Result<Vec<LoopCells>, OutOfMemory>
    ensures rows { IfOk result (λ r. AreEmptyCells loops.now r.items) }
    ensures all { IfOk result (λ r. length r.items ≡ length loops.now) }
{
    let mut rows = Vec::with_capacity(alloc, loops.len())?;
    for number in 0..loops.len() {
        if let Err(fault) = add_cells(alloc, &mut rows, &loops[number]) {
            return Err(fault);
        }
    }
    Ok(rows)
}

/// What an entry tells of its interval, where it tells something.
fn kept(found: Found) -> Option<Settled>
    ensures { result ≡ kept_of found }
{
    match found {
        Found::Won(kernel) => Some(Settled::Won(kernel)),
        Found::Failed(cause) => Some(Settled::Failed(cause)),
        Found::Beaten | Found::Unsettled => None,
    }
}

/// Moves what an entry tells into its cell.
pub(crate) fn put(rows: &mut [LoopCells], loops: &[Prepared], entry: Entry)
    requires truth { IsEntry loops.now entry }
    requires rows { AllZip AreCellsOf loops.now rows.old }
    ensures rows { AllZip AreCellsOf loops.now rows.new }
    ensures fills { (l above : ℕ) → is_full (known_in rows.new l above) ≡ (is_full (known_in rows.old l above) || settles l (mii_at loops.now l + above) entry) }
{
    let Entry {
        loop_number,
        interval,
        found,
    } = entry;
    let Some(settled) = kept(found) else {
        return;
    };
    let number = loop_number as usize;
    let above = interval as u64 - loops[number].mii();
    rows[number].put(above as usize, settled);
}

/// Moves what a report tells into its cells.
fn take_in(rows: &mut [LoopCells], loops: &[Prepared], report: Report<'_>)
    requires same { report.loops ≡ loops.now }
    requires rows { AllZip AreCellsOf loops.now rows.old }
    ensures rows { AllZip AreCellsOf loops.now rows.new }
    ensures fills { (l above : ℕ) → is_full (known_in rows.new l above) ≡ (is_full (known_in rows.old l above) || list_any (settles l (mii_at loops.now l + above)) report.entry.entries) }
{
    let mut entries = report.into_entries();
    while let Some(entry) = entries.pop() {
        put(rows, loops, entry);
    }
}

/// Moves what reports tell into the cells.
pub(crate) fn fill(rows: &mut [LoopCells], loops: &[Prepared], mut reports: Vec<Report<'_>>)
    requires same { All (λ r. r.loops ≡ loops.now) reports.items }
    requires rows { AllZip AreCellsOf loops.now rows.old }
    ensures rows { AllZip AreCellsOf loops.now rows.new }
    ensures fills { (l above : ℕ) → is_full (known_in rows.new l above) ≡ (is_full (known_in rows.old l above) || is_settled_in reports.entry.items l (mii_at loops.now l + above)) }
{
    while let Some(report) = reports.pop() {
        take_in(rows, loops, report);
    }
}
