//! The calls with texts: what the program prints of the texts of a machine and of loops, in the caller's room.

ghost use Rattle.std.specs.Prelude.{◌≡◌, ◌≤◌};
ghost use Rattle.machine_data.specs.declared.limits.TheConstants.{MAX_TRIP};
ghost use Rattle.machine.specs.MachineText.{machine_of};
ghost use Rattle.loop_reader.specs.Meaning.{loops_in};
ghost use Rattle.file_faults.specs.Answers.{AnswersAlone, AnswersFile};
ghost use Rattle.listing_printouts.specs.Bounds.{IsBoundsText};
ghost use Rattle.explain_printouts.specs.Explain.{IsExplainText};
ghost use Rattle.graph_printouts.specs.Graphs.{IsDotText, IsEdgesText};
ghost use Rattle.lines_of_runs.specs.Plain.{IsPlainText};
ghost use Rattle.run_printouts.specs.Run.{IsRunText};
ghost use Rattle.json_printouts.specs.Documents.{IsListingDocument};
ghost use Rattle.printouts.specs.Schedule.{IsListingText};
ghost use Rattle.capi.specs.Texts.{AnswersTexts, HandsBrought, run_misfit, search_misfit, trip_misfit};

use crate::settings_of;
use crate::tasks::{drawn, edged, explained};
use crate::telling::{Told, tell, tell_misfit};
use json_printouts::json_alone;
use machine_data::limits::{MAX_CEILING, MAX_RATIO};
use printouts::{bounds_alone, schedule_alone};
use run_printouts::{plain_alone, run_alone};
use settings::{TRIP_LIMIT, Trip};
use std::alloc::Global;

/// Writes the listing of the loops on the machine, as `modsched schedule` prints it, at each interval with at most `ratio`, 1 to 64,
/// times as many placements as operations, and with at most `ceiling` intervals above the least one of a loop, 0 to 255.
///
/// 0: each loop has a kernel. 1: some loop has none. 2: a number is out of its range. 4: the machine's text is refused. 5: the
/// loops' text is refused. 7: memory ran out, which says nothing of the texts. As much of the text as there is room for is written
/// with status 0 and 1, and with 4 and 5 the line that the program tells of the refusal, without its name and a line feed. How many
/// bytes the whole has is told.
#[unsafe(no_mangle)]
pub extern "C" fn modsched_schedule(
    alloc: Global,
    machine: &[u8],
    loops: &[u8],
    ratio: u64,
    ceiling: u64,
    room: &mut [u8],
    told: &mut Told,
) -> u32
    ensures { AnswersTexts (search_misfit ratio ceiling) (AnswersFile (IsListingText ratio ceiling) (machine_of machine.now) (loops_in loops.now)) room.old room.new told.new result }
{
    let misfit = search_misfit(ratio, ceiling);
    if misfit != 0 {
        return tell_misfit(misfit, told);
    }
    let printed = schedule_alone(alloc, machine, loops, &settings_of(ratio, ceiling));
    tell(alloc, printed, room, told)
}

/// Writes the listing as one JSON document, as `modsched json` prints it; else as [`modsched_schedule`].
#[unsafe(no_mangle)]
pub extern "C" fn modsched_json(
    alloc: Global,
    machine: &[u8],
    loops: &[u8],
    ratio: u64,
    ceiling: u64,
    room: &mut [u8],
    told: &mut Told,
) -> u32
    ensures { AnswersTexts (search_misfit ratio ceiling) (AnswersFile (IsListingDocument ratio ceiling) (machine_of machine.now) (loops_in loops.now)) room.old room.new told.new result }
{
    let misfit = search_misfit(ratio, ceiling);
    if misfit != 0 {
        return tell_misfit(misfit, told);
    }
    let printed = json_alone(alloc, machine, loops, &settings_of(ratio, ceiling));
    tell(alloc, printed, room, told)
}

/// Writes why each loop has its interval, as `modsched explain` prints it; else as [`modsched_schedule`].
#[unsafe(no_mangle)]
pub extern "C" fn modsched_explain(
    alloc: Global,
    machine: &[u8],
    loops: &[u8],
    ratio: u64,
    ceiling: u64,
    room: &mut [u8],
    told: &mut Told,
) -> u32
    ensures { AnswersTexts (search_misfit ratio ceiling) (AnswersFile (IsExplainText ratio ceiling) (machine_of machine.now) (loops_in loops.now)) room.old room.new told.new result }
{
    let misfit = search_misfit(ratio, ceiling);
    if misfit != 0 {
        return tell_misfit(misfit, told);
    }
    let printed = explained(alloc, machine, loops, &settings_of(ratio, ceiling));
    tell(alloc, printed, room, told)
}

/// Writes what the kernel of each loop leaves after `trip` iterations, 0 to 100,000, as `modsched run` prints it; else as
/// [`modsched_schedule`].
#[unsafe(no_mangle)]
pub extern "C" fn modsched_run(
    alloc: Global,
    machine: &[u8],
    loops: &[u8],
    trip: u64,
    ratio: u64,
    ceiling: u64,
    room: &mut [u8],
    told: &mut Told,
) -> u32
    ensures { AnswersTexts (run_misfit ratio ceiling trip) (AnswersFile (IsRunText trip ratio ceiling) (machine_of machine.now) (loops_in loops.now)) room.old room.new told.new result }
{
    let misfit = run_misfit(ratio, ceiling, trip);
    if misfit != 0 {
        return tell_misfit(misfit, told);
    }
    let settings = settings_of(ratio, ceiling);
    let printed = run_alone(alloc, machine, loops, trip_of(trip), &settings);
    tell(alloc, printed, room, told)
}

/// Writes what each loop leaves after `trip` iterations, 0 to 100,000, one after another, as `modsched plain` prints it. It reads no
/// machine; 0, 2, 5 and 7 as [`modsched_schedule`].
#[unsafe(no_mangle)]
pub extern "C" fn modsched_plain(
    alloc: Global,
    loops: &[u8],
    trip: u64,
    room: &mut [u8],
    told: &mut Told,
) -> u32
    ensures { AnswersTexts (trip_misfit trip) (AnswersAlone (IsPlainText trip) (loops_in loops.now)) room.old room.new told.new result }
{
    let misfit = trip_misfit(trip);
    if misfit != 0 {
        return tell_misfit(misfit, told);
    }
    tell(alloc, plain_alone(alloc, loops, trip_of(trip)), room, told)
}

/// Writes the lower bounds of the interval of each loop, as `modsched bounds` prints them. It searches for no kernel; 0, 4, 5 and 7 as
/// [`modsched_schedule`].
#[unsafe(no_mangle)]
pub extern "C" fn modsched_bounds(
    alloc: Global,
    machine: &[u8],
    loops: &[u8],
    room: &mut [u8],
    told: &mut Told,
) -> u32
    ensures { HandsBrought (AnswersFile IsBoundsText (machine_of machine.now) (loops_in loops.now)) room.old room.new told.new result }
{
    tell(alloc, bounds_alone(alloc, machine, loops), room, told)
}

/// Writes the dependences of each loop, as `modsched edges` prints them; else as [`modsched_bounds`].
#[unsafe(no_mangle)]
pub extern "C" fn modsched_edges(
    alloc: Global,
    machine: &[u8],
    loops: &[u8],
    room: &mut [u8],
    told: &mut Told,
) -> u32
    ensures { HandsBrought (AnswersFile IsEdgesText (machine_of machine.now) (loops_in loops.now)) room.old room.new told.new result }
{
    tell(alloc, edged(alloc, machine, loops), room, told)
}

/// Writes a graph of the dependences of each loop for Graphviz, as `modsched dot` prints it; else as [`modsched_bounds`].
#[unsafe(no_mangle)]
pub extern "C" fn modsched_dot(
    alloc: Global,
    machine: &[u8],
    loops: &[u8],
    room: &mut [u8],
    told: &mut Told,
) -> u32
    ensures { HandsBrought (AnswersFile IsDotText (machine_of machine.now) (loops_in loops.now)) room.old room.new told.new result }
{
    tell(alloc, drawn(alloc, machine, loops), room, told)
}

/// Which setting is out of its range, and 0 where none is.
pub(crate) fn search_misfit(ratio: u64, ceiling: u64) -> u64
    ensures { result ≡ search_misfit ratio ceiling }
{
    if ratio < 1 || ratio > MAX_RATIO {
        return 1;
    }
    if ceiling > MAX_CEILING {
        return 2;
    }
    0
}

/// Whether a trip count is out of its range.
fn trip_misfit(trip: u64) -> u64
    ensures { result ≡ trip_misfit trip }
{
    if trip > TRIP_LIMIT { 3 } else { 0 }
}

/// Which setting or trip count is out of its range, and 0 where none is.
fn run_misfit(ratio: u64, ceiling: u64, trip: u64) -> u64
    ensures { result ≡ run_misfit ratio ceiling trip }
{
    let misfit = search_misfit(ratio, ceiling);
    if misfit != 0 {
        return misfit;
    }
    trip_misfit(trip)
}

/// The trip count of this number.
fn trip_of(trip: u64) -> Trip
    requires { trip ≤ MAX_TRIP }
    ensures { result ≡ trip }
{
    match Trip::new(trip) {
        Some(trip) => trip,
        None => unreachable!(),
    }
}
