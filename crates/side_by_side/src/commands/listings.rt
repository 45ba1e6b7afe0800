//! What `schedule` writes.

ghost use Rattle.std.specs.Prelude.{◌≡◌, ◌<◌, ◌≤◌, length, IfOk, IfSome, slice_index_or, vec_len};
ghost use Rattle.std.specs.List.{All};
ghost use Rattle.machine_data.specs.declared.limits.TheConstants.{MAX_CEILING};
ghost use Rattle.loop_listings.specs.Listings.{IsRow};
ghost use Rattle.loop_listings.specs.Texts.{listing_text_of, row_text};
ghost use Rattle.loop_listings.specs.declared.listings.Row as row;
ghost use Rattle.listing_printouts.specs.Met.{are_met};

use candidates::{Listing, Row, write_row, write_version};
use listing_printouts::{are_met, listing_printout, push_counts};
use machine::OutOfMemory;
use shared_jobs::{Jobs, parts_of, shared};
use std::alloc::Global;
use std::thread::Threads;
use text_parts::{Part, append, room_for};
use written::Printout;

/// About how much work it is to write the kernel of a loop, for each of its operations, in statements that are executed once.
const WRITTEN: u64 = 30;

/// Bytes of a kernel's text for each of its operations, in most kernels.
pub(crate) const ROOM: usize = 32;

/// What `schedule` writes of a listing, by at most `workers` workers side by side. One worker starts no thread, and neither do a
/// single loop and loops with few operations.
///
/// # Errors
/// The calling thread was refused memory.
pub fn listing_printout_on<R: Threads + Sync>(
    rt: &R,
    alloc: Global,
    listing: &Listing,
    workers: usize,
) -> Result<Printout, OutOfMemory>
    ensures text { IfOk result (λ w. w.text ≡ listing_text_of listing.now) }
    ensures met { IfOk result (λ w. w.all_met ≡ are_met listing.now.rows) }
{
    match row_jobs(alloc, listing.rows(), workers) {
        Some(jobs) => listing_by(rt, alloc, listing, &jobs),
        None => listing_printout(alloc, listing),
    }
}

/// The jobs of rows.
fn row_jobs(alloc: Global, rows: &[Row], workers: usize) -> Option<Jobs>
    ensures each { IfSome result (λ s. vec_len s.list ≡ length rows.now) }
    ensures within { IfSome result (λ s. All (λ (j : _). j.number < length rows.now) s.list.items) }
{
    shared(
        alloc,
        rows.len(),
        workers,
        &|number| { WRITTEN.saturating_mul(rows[number].operations as u64) },
    )
}

/// What `schedule` writes, by these jobs.
fn listing_by<R: Threads + Sync>(
    rt: &R,
    alloc: Global,
    listing: &Listing,
    jobs: &Jobs,
) -> Result<Printout, OutOfMemory>
    requires each { vec_len jobs.now.list ≡ length listing.now.rows }
    requires within { All (λ (j : _). j.number < length listing.now.rows) jobs.now.list.items }
    ensures text { IfOk result (λ w. w.text ≡ listing_text_of listing.now) }
    ensures met { IfOk result (λ w. w.all_met ≡ are_met listing.now.rows) }
{
    let rows = listing.rows();
    let ceiling = listing.ceiling();
    let parts = parts_of(
        rt,
        alloc,
        jobs,
        &|number| { row_part(alloc, ceiling, rows, number) },
    )?;
    let mut head = String::with_capacity(alloc, room_for(parts.as_slice()))?;
    write_version(&mut head, rows)?;
    let mut text = head.into_bytes();
    append(&mut text, parts)?;
    push_counts(alloc, &mut text, rows)?;
    Ok(Printout::new(text, are_met(rows)))
}

/// What `schedule` writes of the loop of a number.
fn row_part(alloc: Global, ceiling: u64, rows: &[Row], number: usize) -> Result<Part, OutOfMemory>
    requires ceiling { ceiling ≤ MAX_CEILING }
    requires rows { All IsRow rows.now }
    requires within { number < length rows.now }
    ensures { IfOk result (λ part. (d : row.Row) → part.text.items ≡ row_text ceiling (slice_index_or rows.now number d)) }
{
    let row = &rows[number];
    let mut text = String::with_capacity(alloc, row.operations.saturating_mul(ROOM))?;
    write_row(&mut text, ceiling, row)?;
    let met = row.choice.is_met();
    Ok(Part {
        text: text.into_bytes(),
        met,
    })
}
