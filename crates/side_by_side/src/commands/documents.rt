//! What `json` writes of all loops of a text.

ghost use Rattle.std.specs.Prelude.{◌≡◌, ◌++◌, ◌≤◌, ◌==◌, IfOk, OnOk, codes};
ghost use Rattle.std.specs.List.{flat_map};
ghost use Rattle.machine_data.specs.declared.limits.TheConstants.{MAX_LOOPS};
ghost use Rattle.loop_reader.specs.Meaning.{loops_in};
ghost use Rattle.file_faults.specs.Answers.{AnswersIn};
ghost use Rattle.json_objects.specs.Documents.{head_text, tail_text};
ghost use Rattle.json_printouts.specs.Documents.{IsListingDocument};
ghost use Rattle.side_by_side.specs.inner.Objects.{objects_text, without_comma};
ghost use Rattle.side_by_side.specs.inner.Told.{IsCounted, number_failed_told, number_met_told, number_told, text_of_told};

use crate::parts::told::{ToldLoops, all_failed, all_met};
use candidates::Listing;
use file_faults::FileFault;
use json_objects::{push_head, push_tail};
use json_printouts::document_printout;
use listing_json::push_row;
use loop_schedules::Prepared;
use machine::{Machine, OutOfMemory};
use settings::Settings;
use std::alloc::Global;
use std::thread::Threads;
use text_parts::{append, room_for};
use workers::{Told, tell_text};
use writing::Text;
use written::Printout;

/// What `json` writes of the loops of a text, by at most as many workers as the settings say. Of a text of 64 KiB or more each worker takes
/// pieces all the way from reading to what is written; else they read, prepare and try intervals in turn, and the calling thread writes. One
/// worker starts no thread.
///
/// # Errors
/// A fault of the text, then the first loop with an opcode that the machine has no table for; and [`FileFault::Memory`], where the
/// calling thread was refused memory.
pub fn document_text_of<R: Threads + Sync>(
    rt: &R,
    alloc: Global,
    machine: &Machine,
    text: &[u8],
    settings: &Settings,
) -> Result<Printout, FileFault>
    ensures { AnswersIn (IsListingDocument settings.now.ratio settings.now.ceiling machine.now) machine.now (loops_in text.now) result }
{
    let told = tell_text(
        rt,
        alloc,
        machine,
        text,
        settings,
        &|_prepared: &[Prepared], listing: &Listing| -> Result<ToldLoops, OutOfMemory>
            ensures text { IfOk result (λ told. told.text.items ≡ objects_text listing.now.ceiling listing.now.rows) }
            ensures counted { IfOk result (IsCounted listing.now.rows) }
        { told_objects(alloc, listing) },
    )?;
    match told {
        Told::Apart(parts) => Ok(document_together(alloc, parts)?),
        Told::Whole(_, listing) => Ok(document_printout(alloc, &listing)?),
    }
}

/// The objects of the rows of a listing, each before a comma.
fn told_objects(alloc: Global, listing: &Listing) -> Result<ToldLoops, OutOfMemory>
    ensures text { IfOk result (λ told. told.text.items ≡ objects_text listing.now.ceiling listing.now.rows) }
    ensures counted { IfOk result (IsCounted listing.now.rows) }
{
    let mut text = Vec::new(alloc);
    push_objects(alloc, &mut text, listing)?;
    Ok(ToldLoops::new(text, listing.rows()))
}

/// Appends the objects of the rows of a listing, each before a comma.
fn push_objects(alloc: Global, text: &mut Vec<u8>, listing: &Listing) -> Result<(), OutOfMemory>
    ensures { OnOk result (text.new.items ≡ text.old.items ++ objects_text listing.now.ceiling listing.now.rows) }
{
    let rows = listing.rows();
    for row in rows {
        push_row(alloc, text, listing.ceiling(), row)?;
        text.push_piece(",")?;
    }
    Ok(())
}

/// The document, from what is told of the rows.
fn document_together(alloc: Global, parts: Vec<ToldLoops>) -> Result<Printout, OutOfMemory>
    requires { number_told parts.items ≤ MAX_LOOPS }
    ensures text { IfOk result (λ w. w.text ≡ without_comma (number_told parts.items) (head_text (number_failed_told parts.items) ++ flat_map text_of_told parts.items) ++ tail_text (number_met_told parts.items)) }
    ensures met { IfOk result (λ w. w.all_met ≡ (number_failed_told parts.items == 0)) }
{
    let met = all_met(parts.as_slice());
    let failed = all_failed(parts.as_slice());
    let mut text = Vec::with_capacity(alloc, room_for(parts.as_slice()))?;
    push_head(&mut text, failed)?;
    append(&mut text, parts)?;
    if met + failed > 0 {
        // The comma after the last object.
        text.pop();
    }
    push_tail(&mut text, met)?;
    Ok(Printout::new(text, failed == 0))
}
