//! What is known of each offset of a text, found once for all of them.

ghost use Rattle.std.specs.Prelude.{◌≡◌, ◌+◌, ◌<◌, ◌^◌, if◌then◌else◌, length, IfOk};
ghost use Rattle.machine_lint.specs.Words.{is_blank, is_mark};
ghost use Rattle.machine_lint.specs.inner.Sought.{AreLeads, AreStands};

use crate::place::{Place, START};
use crate::search::{comments_on, is_blank, is_mark};
use machine::OutOfMemory;
use std::alloc::Global;

/// Where the byte with an offset stands, and whether a comment has begun before it.
#[derive(Clone, Copy)]
pub(crate) struct Stand {
    pub(crate) place: Place,
    pub(crate) begun: bool,
}

/// For each offset of a text where its byte stands.
pub(crate) fn stands(alloc: Global, text: &[u8]) -> Result<Vec<Stand>, OutOfMemory>
    requires short { length text.now < 2 ^ 32 }
    ensures are { IfOk result (λ stands. AreStands text.now stands.items) }
    ensures all { IfOk result (λ stands. length stands.items ≡ length text.now) }
{
    let mut stands = Vec::new(alloc);
    let mut place = START;
    let mut begun = false;
    for byte in text {
        stands.push(Stand { place, begun })?;
        begun = comments_on(begun, *byte);
        place = place.after(*byte);
    }
    Ok(stands)
}

/// Whether a text leads on as after a key from a byte on, by whether it does from the next one on.
fn leads_by(byte: u8, next: bool) -> bool
    ensures { result ≡ (if is_blank byte then next else is_mark byte) }
{
    if is_blank(byte) { next } else { is_mark(byte) }
}

/// For each offset of a text, and for its end, whether the text leads on from there as after a key.
pub(crate) fn leads(alloc: Global, text: &[u8]) -> Result<Vec<bool>, OutOfMemory>
    requires short { length text.now < 2 ^ 32 }
    ensures are { IfOk result (λ leads. AreLeads text.now leads.items) }
    ensures all { IfOk result (λ leads. length leads.items ≡ length text.now + 1) }
{
    let mut leads = vec![in alloc; false; text.len() + 1]?;
    for at in (0..text.len()).rev() {
        leads[at] = leads_by(text[at], leads[at + 1]);
    }
    Ok(leads)
}
