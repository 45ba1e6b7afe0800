//! The document of a listing.

ghost use Rattle.std.specs.Prelude.{◌≡◌, ◌≤◌, ◌++◌, codes, IfOk, OnOk, string_bytes};
ghost use Rattle.std.specs.List.{All, flat_map, join_by};
ghost use Rattle.loop_listings.specs.Listings.{IsRow};
ghost use Rattle.loop_listings.specs.declared.listings.Row.{Row};
ghost use Rattle.listing_json.specs.Documents.{document_text, row_object};
ghost use Rattle.machine_data.specs.declared.limits.TheConstants.{MAX_CEILING};

use crate::rows::push_object;
use candidates::{Choice, Listing, Row, number_failed, number_met};
use json_objects::{push_head, push_tail};
use machine_data::OutOfMemory;
use std::alloc::Global;

/// Bytes to reserve for what is told of a loop beside its operations.
const ROW_ROOM: usize = 512;

/// Bytes to reserve for an operation of a kernel.
const OPERATION_ROOM: usize = 224;

/// The listing as a JSON document: an object with its loops, each with its kernel or with why it has none,
/// on one line that ends with a line feed. No blank stands between its parts, and keys stand in the order
/// of their bytes. Numbers of 64 bits with a sign are strings.
///
/// # Errors
/// Memory ran out.
pub fn document_text(alloc: Global, listing: &Listing) -> Result<String, OutOfMemory>
    ensures text { IfOk result (λ text. string_bytes text ≡ document_text listing.now) }
{
    let rows = listing.rows();
    let mut text = String::with_capacity(alloc, room(rows))?;
    push_head(&mut text, number_failed(rows) as u64)?;
    push_rows(alloc, &mut text, listing.ceiling(), rows)?;
    push_tail(&mut text, number_met(rows) as u64)?;
    Ok(text)
}

/// Bytes to reserve, so that the text seldom has to grow.
fn room(rows: &[Row]) -> usize {
    let mut room = ROW_ROOM;
    for row in rows {
        room = room.saturating_add(row_room(row));
    }
    room
}

/// Bytes to reserve for a loop.
fn row_room(row: &Row) -> usize {
    match &row.choice {
        Choice::Met(_, kernel) => {
            let operations = kernel.parts().operations.as_slice().len();
            ROW_ROOM.saturating_add(operations.saturating_mul(OPERATION_ROOM))
        }
        Choice::Failed(_) => ROW_ROOM,
    }
}

/// Appends the objects of loops, with a comma between two.
fn push_rows(
    alloc: Global,
    text: &mut String,
    ceiling: u64,
    rows: &[Row],
) -> Result<(), OutOfMemory>
    requires ceiling { ceiling ≤ MAX_CEILING }
    requires rows { All IsRow rows.now }
    ensures { OnOk result (string_bytes text.new ≡ string_bytes text.old ++ join_by (row_object ceiling) (codes ",") rows.now) }
{
    let Some((first, others)) = rows.split_first() else {
        return Ok(());
    };
    push_object(alloc, text, ceiling, first)?;
    push_others(alloc, text, ceiling, others)
}

/// Appends the objects of loops, each after a comma.
fn push_others(
    alloc: Global,
    text: &mut String,
    ceiling: u64,
    rows: &[Row],
) -> Result<(), OutOfMemory>
    requires ceiling { ceiling ≤ MAX_CEILING }
    requires rows { All IsRow rows.now }
    ensures { OnOk result (string_bytes text.new ≡ string_bytes text.old ++ flat_map (λ (row : Row). codes "," ++ row_object ceiling row) rows.now) }
{
    for row in rows {
        push_other(alloc, text, ceiling, row)?;
    }
    Ok(())
}

/// Appends the object of a loop after a comma.
fn push_other(alloc: Global, text: &mut String, ceiling: u64, row: &Row) -> Result<(), OutOfMemory>
    requires ceiling { ceiling ≤ MAX_CEILING }
    requires row { IsRow row.now }
    ensures { OnOk result (string_bytes text.new ≡ string_bytes text.old ++ (codes "," ++ row_object ceiling row.now)) }
{
    text.push_str(",")?;
    push_object(alloc, text, ceiling, row)
}
