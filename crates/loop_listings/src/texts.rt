//! Listings as text.

ghost use Rattle.std.specs.Prelude.{◌≡◌, ◌≤◌, ◌++◌, codes, IfOk, string_bytes};
ghost use Rattle.std.specs.List.{All, flat_map};
ghost use Rattle.loop_listings.specs.declared.choices.Choice.TheVariants.{Failed, Met};
ghost use Rattle.writing.specs.Words.{ended};
ghost use Rattle.loop_listings.specs.Listings.{IsRow};
ghost use Rattle.loop_listings.specs.Texts.{cause_word, choice_text, has_outs, head_of, counts_line, listing_text_of, mii_in, number_failed, number_met, row_text, version_text};
ghost use Rattle.machine_data.specs.declared.limits.TheConstants.{MAX_CEILING};

use crate::causes::Cause;
use crate::choices::Choice;
use crate::listings::{Listing, Row};
use kernel::{Kernel, text_room, write_kernel};
use machine_data::OutOfMemory;
use std::alloc::Global;
use writing::{push_both, push_last, push_line, push_told};

/// How many bytes are reserved for the line of a loop.
const LINE_ROOM: usize = 128;

/// The text of a listing: a line and the kernel's text for each loop, and a last line with their numbers.
/// Where some loop has a value that is live at the end, the line `version 2` comes first.
#[tactic(auto, unfolding(crate::specs::Texts::listing_text_of))]
pub fn listing_text(alloc: Global, listing: &Listing) -> Result<String, OutOfMemory>
    ensures text { IfOk result (λ text. string_bytes text ≡ listing_text_of listing.now) }
{
    let rows = listing.rows();
    let mut text = String::with_capacity(alloc, room(rows))?;
    write_version(&mut text, rows)?;
    write_rows(&mut text, listing.ceiling(), rows)?;
    write_last(&mut text, rows)?;
    Ok(text)
}

/// Bytes to reserve, so that the text need not grow.
fn room(rows: &[Row]) -> usize {
    let mut room = LINE_ROOM;
    for row in rows {
        room = room.saturating_add(row_room(row));
    }
    room
}

/// Bytes to reserve for a loop.
fn row_room(row: &Row) -> usize
    ensures { result ≤ 155776 }
{
    match &row.choice {
        Choice::Met(_, kernel) => LINE_ROOM + text_room(kernel),
        Choice::Failed(_) => LINE_ROOM,
    }
}

/// Appends the line that tells that some loop has a value that is live at the end, where one has. Where memory runs out the text
/// is left with a part of it.
pub fn write_version(text: &mut String, rows: &[Row]) -> Result<(), OutOfMemory>
    ensures text { IfOk result (λ _. string_bytes text.new ≡ string_bytes text.old ++ version_text rows.now) }
{
    if has_outs(rows) {
        text.push_str("version 2\n")?;
    }
    Ok(())
}

/// Whether some loop has a value that is live at the end.
fn has_outs(rows: &[Row]) -> bool
    ensures { result ≡ has_outs rows.now }
{
    rows.iter().any(|row| row.outs > 0)
}

/// Writes what is told of each loop.
fn write_rows(text: &mut String, ceiling: u64, rows: &[Row]) -> Result<(), OutOfMemory>
    requires ceiling { ceiling ≤ MAX_CEILING }
    requires rows { All IsRow rows.now }
    ensures { IfOk result (λ _. string_bytes text.new ≡ string_bytes text.old ++ flat_map (row_text ceiling) rows.now) }
{
    for row in rows {
        write_row(text, ceiling, row)?;
    }
    Ok(())
}

/// Appends what is told of a loop: its line, and its kernel's text. The ceiling, 0 to 255, is how many
/// intervals above the least one were tried. Where memory runs out the text is left with a part of it.
pub fn write_row(text: &mut String, ceiling: u64, row: &Row) -> Result<(), OutOfMemory>
    requires ceiling { ceiling ≤ MAX_CEILING }
    requires row { IsRow row.now }
    ensures text { IfOk result (λ _. string_bytes text.new ≡ string_bytes text.old ++ row_text ceiling row.now) }
{
    let least = row.resources.max(row.recurrences);
    write_head(text, row, least)?;
    match &row.choice {
        Choice::Met(ii, kernel) => write_met(text, *ii, kernel),
        Choice::Failed(cause) => write_failed(text, least + ceiling, *cause),
    }
}

/// Writes the line's beginning, up to the least interval that is tried.
fn write_head(text: &mut String, row: &Row, least: u64) -> Result<(), OutOfMemory>
    requires { least ≡ mii_in row.now }
    ensures { IfOk result (λ _. string_bytes text.new ≡ string_bytes text.old ++ head_of row.now) }
{
    push_both(text, "loop ", row.name.as_str())?;
    push_told(text, " ops ", row.operations as u64)?;
    push_told(text, " res ", row.resources)?;
    push_told(text, " rec ", row.recurrences)?;
    push_told(text, " mii ", least)
}

/// Writes the rest of the line of a loop that has a kernel, and the kernel's text.
fn write_met(text: &mut String, ii: u64, kernel: &Kernel) -> Result<(), OutOfMemory>
    ensures { IfOk result (λ _. string_bytes text.new ≡ string_bytes text.old ++ choice_text 0 (Met ii kernel.now)) }
{
    push_told(text, " ii ", ii)?;
    push_told(text, " stages ", kernel.parts().stages)?;
    text.push_str("\n")?;
    write_kernel(text, kernel)
}

/// Writes the rest of the line of a loop that has none.
fn write_failed(text: &mut String, last: u64, cause: Cause) -> Result<(), OutOfMemory>
    ensures { IfOk result (λ _. string_bytes text.new ≡ string_bytes text.old ++ choice_text last (Failed cause)) }
{
    push_told(text, " failed to ", last)?;
    write_cause(text, cause)
}

/// Writes a cause, and ends the line.
fn write_cause(text: &mut String, cause: Cause) -> Result<(), OutOfMemory>
    ensures { IfOk result (λ _. string_bytes text.new ≡ string_bytes text.old ++ (codes ": " ++ ended (cause_word cause))) }
{
    text.push_str(": ")?;
    push_line(text, cause.word())
}

/// Appends the last line: how many loops there are, how many have a kernel and how many have none. Where
/// memory runs out the text is left with a part of it.
pub fn write_last(text: &mut String, rows: &[Row]) -> Result<(), OutOfMemory>
    ensures text { IfOk result (λ _. string_bytes text.new ≡ string_bytes text.old ++ counts_line rows.now) }
{
    let (met, failed) = (number_met(rows) as u64, number_failed(rows) as u64);
    push_last(text, "loops ", rows.len() as u64, met, failed)
}

/// How many loops have a kernel.
pub fn number_met(rows: &[Row]) -> usize
    ensures { result ≡ number_met rows.now }
{
    rows.iter().filter(|row| row.choice.is_met()).count()
}

/// How many loops have no kernel.
pub fn number_failed(rows: &[Row]) -> usize
    ensures { result ≡ number_failed rows.now }
{
    rows.iter().filter(|row| row.choice.is_failed()).count()
}
