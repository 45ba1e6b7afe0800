//! What `run` writes.

ghost use Rattle.std.specs.Prelude.{◌≡◌, ◌<◌, ◌++◌, ℕ, length, IfOk, map, slice_index_or, vec_len};
ghost use Rattle.std.specs.List.{All, flat_map};
ghost use Rattle.loop_schedules.specs.Problems.{ProblemData};
ghost use Rattle.loop_listings.specs.Texts.{counts_line};
ghost use Rattle.loop_listings.specs.declared.listings.Row as row;
ghost use Rattle.candidates.specs.Files.{ListsProblems};
ghost use Rattle.lines_of_runs.specs.Runs.{choice_lines, told_lines};
ghost use Rattle.listing_printouts.specs.Met.{are_met};
ghost use Rattle.text_parts.specs.Parts.{text_of};

use crate::halves::push_told;
use crate::room::part_memory;
use crate::work::{LARGE, run_work};
use candidates::{Listing, Row};
use lines_of_runs::run_printout;
use listing_printouts::{are_met, push_counts};
use loop_data::Loop;
use loop_schedules::Prepared;
use machine_data::OutOfMemory;
use settings::Trip;
use shared_jobs::{Jobs, parts_of, shared};
use std::alloc::Global;
use std::thread::Threads;
use text_parts::{Part, Parted, texts_of};

/// How many statements such a loop has at least for each of its arrays: its halves hold three memories, and each has all
/// cells of the arrays.
const STATEMENTS_FOR_ARRAY: usize = 8;

/// What `run` writes of prepared loops with their listing, by at most `workers` workers side by side. One worker starts
/// no thread, and neither do loops whose runs are little work. A loop that is more than a worker's share of the work is
/// run in halves: each half has a thread, and the worker that draws this loop waits for them, so that one worker fewer shares
/// the loops.
///
/// # Errors
/// The calling thread was refused memory.
pub fn run_text_on<R: Threads + Sync>(
    rt: &R,
    alloc: Global,
    prepared: &[Prepared],
    listing: &Listing,
    trip: Trip,
    workers: usize,
) -> Result<Parted, OutOfMemory>
    requires { ListsProblems listing.now.ceiling prepared.now listing.now }
    ensures text { IfOk result (λ w. w.text ≡ told_lines trip listing.now.ceiling (map (λ (p : ProblemData). p.loop) prepared.now) listing.now.rows ++ counts_line listing.now.rows) }
    ensures met { IfOk result (λ w. w.all_met ≡ are_met listing.now.rows) }
{
    let large = large_of(prepared, listing.rows(), trip, workers);
    let sharing = if large.is_some() {
        workers.saturating_sub(1)
    } else {
        workers
    };
    let jobs = shared(
        alloc,
        prepared.len(),
        sharing,
        &|number| { run_work(prepared[number].innermost(), trip) },
    );
    match jobs {
        Some(jobs) => run_by(rt, alloc, prepared, listing, trip, large, &jobs),
        None => run_here(rt, alloc, prepared, listing, trip, large),
    }
}

/// The number of the loop whose kernel is run in halves, if any is: the loop with a kernel that has most work of these,
/// where that is more than the share of one of `workers` workers.
fn large_of(prepared: &[Prepared], rows: &[Row], trip: Trip, workers: usize) -> Option<usize> {
    let mut all = 0u64;
    let mut most = 0u64;
    let mut number = None;
    for index in 0..prepared.len() {
        let work = kernel_work(prepared[index].innermost(), rows.get(index), trip);
        all = all.saturating_add(work);
        if work > most {
            most = work;
            number = Some(index);
        }
    }
    let largest = prepared.get(number?)?.innermost();
    let is_large = most >= LARGE && most.saturating_mul(workers as u64) > all;
    if is_large && has_few_arrays(largest) {
        number
    } else {
        None
    }
}

/// How much work the run of a loop's kernel is. It is none where the loop has no kernel.
fn kernel_work(innermost: &Loop, row: Option<&Row>, trip: Trip) -> u64 {
    match row {
        Some(row) => if row.choice.is_met() {
            run_work(innermost, trip)
        } else {
            0
        },
        None => 0,
    }
}

/// Whether a loop has so few arrays that three memories of it are worth while.
fn has_few_arrays(innermost: &Loop) -> bool {
    let arrays = innermost.arrays().len();
    innermost.statements().len() >= arrays.saturating_mul(STATEMENTS_FOR_ARRAY)
}

/// What `run` writes, by the calling thread, but for half of the run of the kernel of the loop `large`.
fn run_here<R: Threads + Sync>(
    rt: &R,
    alloc: Global,
    prepared: &[Prepared],
    listing: &Listing,
    trip: Trip,
    large: Option<usize>,
) -> Result<Parted, OutOfMemory>
    requires { ListsProblems listing.now.ceiling prepared.now listing.now }
    ensures text { IfOk result (λ w. w.text ≡ told_lines trip listing.now.ceiling (map (λ (p : ProblemData). p.loop) prepared.now) listing.now.rows ++ counts_line listing.now.rows) }
    ensures met { IfOk result (λ w. w.all_met ≡ are_met listing.now.rows) }
{
    if large.is_none() {
        return Ok(Parted::whole(run_printout(alloc, prepared, listing, trip)?));
    }
    let parts = parts_in_order(rt, alloc, prepared, listing, trip, large)?;
    with_counts(alloc, parts, listing)
}

/// What the calling thread writes of all loops, one after another.
fn parts_in_order<R: Threads + Sync>(
    rt: &R,
    alloc: Global,
    prepared: &[Prepared],
    listing: &Listing,
    trip: Trip,
    large: Option<usize>,
) -> Result<Vec<Part>, OutOfMemory>
    requires { ListsProblems listing.now.ceiling prepared.now listing.now }
    ensures each { IfOk result (λ parts. length parts.items ≡ length prepared.now) }
    ensures told { IfOk result (λ parts. (k : ℕ) (d : ProblemData) (e : row.Row) (f : _) → k < length prepared.now → (slice_index_or parts.items k f).text.items ≡ choice_lines trip listing.now.ceiling (slice_index_or prepared.now k d).loop (slice_index_or listing.now.rows k e) (slice_index_or listing.now.rows k e).choice) }
{
    let mut parts = Vec::with_capacity(alloc, prepared.len())?;
    for number in 0..prepared.len() {
        let part = run_part(rt, alloc, prepared, listing, trip, large, number)?;
        parts.push(part)?;
    }
    Ok(parts)
}

/// What `run` writes, by these jobs.
fn run_by<R: Threads + Sync>(
    rt: &R,
    alloc: Global,
    prepared: &[Prepared],
    listing: &Listing,
    trip: Trip,
    large: Option<usize>,
    jobs: &Jobs,
) -> Result<Parted, OutOfMemory>
    requires lists { ListsProblems listing.now.ceiling prepared.now listing.now }
    requires each { vec_len jobs.now.list ≡ length prepared.now }
    requires within { All (λ (j : _). j.number < length prepared.now) jobs.now.list.items }
    ensures text { IfOk result (λ w. w.text ≡ told_lines trip listing.now.ceiling (map (λ (p : ProblemData). p.loop) prepared.now) listing.now.rows ++ counts_line listing.now.rows) }
    ensures met { IfOk result (λ w. w.all_met ≡ are_met listing.now.rows) }
{
    part_memory(alloc, trip);
    let parts = parts_of(
        rt,
        alloc,
        jobs,
        &|number|
            requires lists { ListsProblems listing.now.ceiling prepared.now listing.now }
            requires within { number < length prepared.now }
        { run_part(rt, alloc, prepared, listing, trip, large, number) },
    )?;
    with_counts(alloc, parts, listing)
}

/// These parts with the last line, which counts the loops.
fn with_counts(alloc: Global, parts: Vec<Part>, listing: &Listing) -> Result<Parted, OutOfMemory>
    ensures text { IfOk result (λ w. w.text ≡ flat_map text_of parts.items ++ counts_line listing.now.rows) }
    ensures met { IfOk result (λ w. w.all_met ≡ are_met listing.now.rows) }
{
    let mut last = Vec::new(alloc);
    push_counts(alloc, &mut last, listing.rows())?;
    let texts = texts_of(alloc, parts, last)?;
    Ok(Parted::of_texts(texts, are_met(listing.rows())))
}

/// What `run` writes of the loop of a number. The kernel of the loop `large` is run in halves.
fn run_part<R: Threads + Sync>(
    rt: &R,
    alloc: Global,
    prepared: &[Prepared],
    listing: &Listing,
    trip: Trip,
    large: Option<usize>,
    number: usize,
) -> Result<Part, OutOfMemory>
    requires lists { ListsProblems listing.now.ceiling prepared.now listing.now }
    requires within { number < length prepared.now }
    ensures { IfOk result (λ part. (d : ProblemData) (e : row.Row) → part.text.items ≡ choice_lines trip listing.now.ceiling (slice_index_or prepared.now number d).loop (slice_index_or listing.now.rows number e) (slice_index_or listing.now.rows number e).choice) }
{
    let rows = listing.rows();
    let mut text = Vec::new(alloc);
    push_told(
        rt,
        alloc,
        &mut text,
        &prepared[number],
        listing.ceiling(),
        &rows[number],
        trip,
        large == Some(number),
    )?;
    let met = rows[number].choice.is_met();
    Ok(Part { text, met })
}
