//! What `run` writes.

ghost use Rattle.std.specs.Prelude.{◌≡◌, ◌≤◌, ◌++◌, IfOk, OnOk, map};
ghost use Rattle.machine_data.specs.declared.limits.TheConstants.{MAX_CEILING};
ghost use Rattle.loop_schedules.specs.Problems.{ProblemData};
ghost use Rattle.loop_listings.specs.declared.listings.Row as row;
ghost use Rattle.loop_listings.specs.Listings.{IsRow};
ghost use Rattle.loop_listings.specs.Texts.{counts_line, row_text};
ghost use Rattle.kernel.specs.Overlapped.{overlapped};
ghost use Rattle.loop_data.specs.Run.{opening_of};
ghost use Rattle.listing_printouts.specs.Met.{are_met};
ghost use Rattle.lines_of_runs.specs.Runnable.{AreRunnable, HasSizesOf, IsRunnable};
ghost use Rattle.lines_of_runs.specs.Runs.{choice_lines, kernel_lines, told_lines};

use crate::runs::{push_run, within_limits};
use kernel::Kernel;
use kernel_runs::simulate_from;
use listing_printouts::{are_met, push_counts};
use loop_data::{Loop, Memory, opening};
use loop_listings::{Choice, Listing, Row, write_row};
use loop_schedules::Prepared;
use machine_data::OutOfMemory;
use settings::Trip;
use std::alloc::Global;
use written::Printout;

/// What `run` writes of prepared loops with a listing of them, whose kernels have the sizes of their loops.
///
/// # Errors
/// Memory was refused.
pub fn run_printout(
    alloc: Global,
    prepared: &[Prepared],
    listing: &Listing,
    trip: Trip,
) -> Result<Printout, OutOfMemory>
    requires { AreRunnable prepared.now listing.now.rows }
    ensures text { IfOk result (λ w. w.text ≡ told_lines trip listing.now.ceiling (map (λ (p : ProblemData). p.loop) prepared.now) listing.now.rows ++ counts_line listing.now.rows) }
    ensures met { IfOk result (λ w. w.all_met ≡ are_met listing.now.rows) }
{
    let mut text = Vec::new(alloc);
    push_runs(alloc, &mut text, prepared, listing, trip)?;
    push_counts(alloc, &mut text, listing.rows())?;
    Ok(Printout::new(text, are_met(listing.rows())))
}

/// Appends what `run` writes of prepared loops with a listing of them, whose kernels have the sizes of their loops, but for the last line.
///
/// # Errors
/// Memory was refused. The text is left with a part of that.
pub fn push_runs(
    alloc: Global,
    text: &mut Vec<u8>,
    prepared: &[Prepared],
    listing: &Listing,
    trip: Trip,
) -> Result<(), OutOfMemory>
    requires { AreRunnable prepared.now listing.now.rows }
    ensures { OnOk result (text.new.items ≡ text.old.items ++ told_lines trip listing.now.ceiling (map (λ (p : ProblemData). p.loop) prepared.now) listing.now.rows) }
{
    let rows = listing.rows();
    for index in 0..rows.len() {
        let innermost = prepared[index].innermost();
        push_row(
            alloc,
            text,
            innermost,
            listing.ceiling(),
            &rows[index],
            trip,
        )?;
    }
    Ok(())
}

/// Appends what `run` writes of a prepared loop with its row in a listing: the lines of its kernel's run, or its line of
/// the listing. The ceiling, 0 to 255, is that of the listing: how many intervals above the least one were tried.
///
/// # Errors
/// Memory was refused. The text is left with a part of that.
pub fn push_choice(
    alloc: Global,
    text: &mut Vec<u8>,
    prepared: &Prepared,
    ceiling: u64,
    listed: &Row,
    trip: Trip,
) -> Result<(), OutOfMemory>
    requires ceiling { ceiling ≤ MAX_CEILING }
    requires row { IsRow listed.now }
    requires runs { IsRunnable prepared.now.loop listed.now.choice }
    ensures { OnOk result (text.new.items ≡ text.old.items ++ choice_lines trip ceiling prepared.now.loop listed.now listed.now.choice) }
{
    push_row(alloc, text, prepared.innermost(), ceiling, listed, trip)
}

/// Appends what is told of a loop.
fn push_row(
    alloc: Global,
    text: &mut Vec<u8>,
    innermost: &Loop,
    ceiling: u64,
    row: &Row,
    trip: Trip,
) -> Result<(), OutOfMemory>
    requires ceiling { ceiling ≤ MAX_CEILING }
    requires row { IsRow row.now }
    requires runs { IsRunnable innermost.now row.now.choice }
    ensures { OnOk result (text.new.items ≡ text.old.items ++ choice_lines trip ceiling innermost.now row.now row.now.choice) }
{
    match &row.choice {
        Choice::Met(_, kernel) => push_kernel(alloc, text, innermost, kernel, trip),
        Choice::Failed(_) => push_failed(alloc, text, ceiling, row),
    }
}

/// Appends the lines of the run of a loop's kernel.
fn push_kernel(
    alloc: Global,
    text: &mut Vec<u8>,
    innermost: &Loop,
    kernel: &Kernel,
    trip: Trip,
) -> Result<(), OutOfMemory>
    requires { HasSizesOf innermost.now kernel.now }
    ensures { OnOk result (text.new.items ≡ text.old.items ++ kernel_lines trip innermost.now kernel.now) }
{
    let after = left_by(alloc, innermost, kernel, trip)?;
    push_run(text, innermost, &after)
}

/// The memory that the kernel leaves of the loop's opening memory.
fn left_by(
    alloc: Global,
    innermost: &Loop,
    kernel: &Kernel,
    trip: Trip,
) -> Result<Memory, OutOfMemory>
    requires { HasSizesOf innermost.now kernel.now }
    ensures { IfOk result (λ after. after ≡ overlapped kernel.now (opening_of innermost.now trip)) }
{
    let before = within_limits(opening(alloc, innermost, trip.count()))?;
    within_limits(simulate_from(alloc, kernel, trip.count(), before))
}

/// Appends the line of a loop without a kernel.
fn push_failed(
    alloc: Global,
    text: &mut Vec<u8>,
    ceiling: u64,
    row: &Row,
) -> Result<(), OutOfMemory>
    requires ceiling { ceiling ≤ MAX_CEILING }
    requires row { IsRow row.now }
    ensures { OnOk result (text.new.items ≡ text.old.items ++ row_text ceiling row.now) }
{
    let mut line = String::new(alloc);
    write_row(&mut line, ceiling, row)?;
    text.extend_from_slice(line.as_bytes())
}
