//! What `schedule` writes of a listing, and the last line, which `run` writes, too.

ghost use Rattle.std.specs.Prelude.{◌≡◌, ◌++◌, IfOk, OnOk};
ghost use Rattle.loop_listings.specs.Texts.{counts_line, listing_text_of};
ghost use Rattle.listing_printouts.specs.Met.{are_met};

use loop_listings::{Listing, Row, listing_text, write_last};
use machine_data::OutOfMemory;
use std::alloc::Global;
use written::Printout;

/// What `schedule` writes of a listing.
///
/// # Errors
/// Memory was refused.
pub fn listing_printout(alloc: Global, listing: &Listing) -> Result<Printout, OutOfMemory>
    ensures text { IfOk result (λ w. w.text ≡ listing_text_of listing.now) }
    ensures met { IfOk result (λ w. w.all_met ≡ are_met listing.now.rows) }
{
    let text = listing_text(alloc, listing)?.into_bytes();
    Ok(Printout::new(text, are_met(listing.rows())))
}

/// Whether every loop has a kernel.
pub fn are_met(rows: &[Row]) -> bool
    ensures { result ≡ are_met rows.now }
{
    rows.iter().all(|row| row.choice.is_met())
}

/// Appends the last line of a listing, with how many loops have a kernel and how many have none.
///
/// # Errors
/// Memory was refused. The text is left with a part of that.
pub fn push_counts(alloc: Global, text: &mut Vec<u8>, rows: &[Row]) -> Result<(), OutOfMemory>
    ensures { OnOk result (text.new.items ≡ text.old.items ++ counts_line rows.now) }
{
    let mut line = String::new(alloc);
    write_last(&mut line, rows)?;
    text.extend_from_slice(line.as_bytes())
}
