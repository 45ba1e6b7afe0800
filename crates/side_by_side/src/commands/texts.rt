//! What `schedule` and `run` write of all loops of a text.

ghost use Rattle.std.specs.Prelude.{◌≡◌, ◌++◌, ◌≤◌, ◌==◌, IfOk, map, string_bytes};
ghost use Rattle.std.specs.List.{flat_map, list_any};
ghost use Rattle.machine_data.specs.declared.limits.TheConstants.{MAX_LOOPS};
ghost use Rattle.loop_reader.specs.Meaning.{loops_in};
ghost use Rattle.file_faults.specs.Answers.{AnswersIn};
ghost use Rattle.loop_schedules.specs.Problems.{ProblemData};
ghost use Rattle.loop_listings.specs.Texts.{row_text};
ghost use Rattle.candidates.specs.Files.{ListsProblems};
ghost use Rattle.run_printouts.specs.Run.{IsRunText, told_lines};
ghost use Rattle.printouts.specs.Schedule.{IsListingText};
ghost use Rattle.side_by_side.specs.inner.Told.{IsCounted, last_told, number_failed_told, number_told, outs_of, text_of_told, version_if};

use crate::commands::listings::{ROOM, listing_printout_on};
use crate::parts::told::{ToldLoops, some_outs, told_apart, told_together};
use candidates::{Listing, Row, write_row};
use file_faults::FileFault;
use lines_of_runs::push_runs;
use loop_schedules::Prepared;
use machine::{Machine, OutOfMemory};
use settings::{Settings, Trip};
use shared_runs::run_text_on;
use std::alloc::Global;
use std::thread::Threads;
use text_parts::Parted;
use workers::{Told, tell_text};
use written::Printout;

/// What `schedule` writes of the loops of a text, by at most as many workers as the settings say. Of a text of 64 KiB or more each worker takes
/// pieces all the way from reading to what is written; else they read, prepare, try intervals and write in turn. One worker starts no thread.
///
/// # Errors
/// A fault of the text, then the first loop with an opcode that the machine has no table for; and [`FileFault::Memory`], where the
/// calling thread was refused memory.
pub fn schedule_text_of<R: Threads + Sync>(
    rt: &R,
    alloc: Global,
    machine: &Machine,
    text: &[u8],
    settings: &Settings,
) -> Result<Printout, FileFault>
    ensures { AnswersIn (IsListingText settings.now.ratio settings.now.ceiling machine.now) machine.now (loops_in text.now) result }
{
    let told = tell_text(
        rt,
        alloc,
        machine,
        text,
        settings,
        &|_prepared: &[Prepared], listing: &Listing| -> Result<ToldLoops, OutOfMemory>
            ensures text { IfOk result (λ told. told.text.items ≡ flat_map (row_text listing.now.ceiling) listing.now.rows) }
            ensures counted { IfOk result (IsCounted listing.now.rows) }
        { told_rows(alloc, listing) },
    )?;
    match told {
        Told::Apart(parts) => Ok(listing_together(alloc, parts)?),
        Told::Whole(_, listing) => Ok(listing_printout_on(
            rt,
            alloc,
            &listing,
            settings.workers(),
        )?),
    }
}

/// The rows of a listing as `schedule` writes them.
fn told_rows(alloc: Global, listing: &Listing) -> Result<ToldLoops, OutOfMemory>
    ensures text { IfOk result (λ told. told.text.items ≡ flat_map (row_text listing.now.ceiling) listing.now.rows) }
    ensures counted { IfOk result (IsCounted listing.now.rows) }
{
    let rows = listing.rows();
    let mut text = String::with_capacity(alloc, rows_room(rows))?;
    write_rows(&mut text, listing)?;
    Ok(ToldLoops::new(text.into_bytes(), rows))
}

/// About how many bytes rows take.
fn rows_room(rows: &[Row]) -> usize {
    let mut room = 0usize;
    for row in rows {
        room = room.saturating_add(row.operations.saturating_mul(ROOM));
    }
    room
}

/// Appends the rows of a listing, in order.
fn write_rows(text: &mut String, listing: &Listing) -> Result<(), OutOfMemory>
    ensures { IfOk result (λ _. string_bytes text.new ≡ string_bytes text.old ++ flat_map (row_text listing.now.ceiling) listing.now.rows) }
{
    let rows = listing.rows();
    for row in rows {
        write_row(text, listing.ceiling(), row)?;
    }
    Ok(())
}

/// What `schedule` writes, from what is told of the rows.
fn listing_together(alloc: Global, parts: Vec<ToldLoops>) -> Result<Printout, OutOfMemory>
    requires { number_told parts.items ≤ MAX_LOOPS }
    ensures text { IfOk result (λ w. w.text ≡ (version_if (list_any outs_of parts.items) ++ flat_map text_of_told parts.items) ++ last_told parts.items) }
    ensures met { IfOk result (λ w. w.all_met ≡ (number_failed_told parts.items == 0)) }
{
    let head = if some_outs(parts.as_slice()) {
        "version 2\n"
    } else {
        ""
    };
    told_together(alloc, head, parts)
}

/// What `run` writes of the loops of a text, by at most as many workers as the settings say, as [`schedule_text_of`] takes it.
///
/// # Errors
/// As those of [`schedule_text_of`].
pub fn run_text_of<R: Threads + Sync>(
    rt: &R,
    alloc: Global,
    machine: &Machine,
    text: &[u8],
    settings: &Settings,
    trip: Trip,
) -> Result<Parted, FileFault>
    ensures { AnswersIn (IsRunText trip settings.now.ratio settings.now.ceiling machine.now) machine.now (loops_in text.now) result }
{
    let told = tell_text(
        rt,
        alloc,
        machine,
        text,
        settings,
        &|prepared: &[Prepared], listing: &Listing| -> Result<ToldLoops, OutOfMemory>
            requires { ListsProblems listing.now.ceiling prepared.now listing.now }
            ensures text { IfOk result (λ told. told.text.items ≡ told_lines trip listing.now.ceiling (map (λ (p : ProblemData). p.loop) prepared.now) listing.now.rows) }
            ensures counted { IfOk result (IsCounted listing.now.rows) }
        { told_runs(alloc, prepared, listing, trip) },
    )?;
    match told {
        Told::Apart(parts) => Ok(told_apart(alloc, parts)?),
        Told::Whole(prepared, listing) => Ok(run_text_on(
            rt,
            alloc,
            prepared.as_slice(),
            &listing,
            trip,
            settings.workers(),
        )?),
    }
}

/// The runs of prepared loops with their listing, as `run` writes them.
fn told_runs(
    alloc: Global,
    prepared: &[Prepared],
    listing: &Listing,
    trip: Trip,
) -> Result<ToldLoops, OutOfMemory>
    requires { ListsProblems listing.now.ceiling prepared.now listing.now }
    ensures text { IfOk result (λ told. told.text.items ≡ told_lines trip listing.now.ceiling (map (λ (p : ProblemData). p.loop) prepared.now) listing.now.rows) }
    ensures counted { IfOk result (IsCounted listing.now.rows) }
{
    let mut text = Vec::new(alloc);
    push_runs(alloc, &mut text, prepared, listing, trip)?;
    Ok(ToldLoops::new(text, listing.rows()))
}
