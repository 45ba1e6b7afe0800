//! What `json` writes of a listing.

ghost use Rattle.std.specs.Prelude.{◌≡◌, IfOk};
ghost use Rattle.listing_json.specs.Documents.{document_text};
ghost use Rattle.listing_printouts.specs.Met.{are_met};

use candidates::Listing;
use listing_json::document_text;
use listing_printouts::are_met;
use machine::OutOfMemory;
use std::alloc::Global;
use written::Printout;

/// What `json` writes of a listing.
///
/// # Errors
/// Memory was refused.
pub fn document_printout(alloc: Global, listing: &Listing) -> Result<Printout, OutOfMemory>
    ensures text { IfOk result (λ w. w.text ≡ document_text listing.now) }
    ensures met { IfOk result (λ w. w.all_met ≡ are_met listing.now.rows) }
{
    let text = document_text(alloc, listing)?.into_bytes();
    Ok(Printout::new(text, are_met(listing.rows())))
}
