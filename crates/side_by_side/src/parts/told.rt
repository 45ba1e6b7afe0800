//! What is told of some loops of a text, one after another.

ghost use Rattle.std.specs.Prelude.{◌≡◌, ◌++◌, ◌^◌, ◌<◌, ◌≤◌, ◌==◌, IfOk};
ghost use Rattle.std.specs.List.{flat_map, list_any};
ghost use Rattle.machine_data.specs.declared.limits.TheConstants.{MAX_LOOPS};
ghost use Rattle.loop_listings.specs.Texts.{has_outs};
ghost use Rattle.side_by_side.specs.inner.Told.{IsCounted, last_told, number_failed_told, number_met_told, number_told, outs_of, text_of_told};

use candidates::{Row, number_failed, number_met};
use machine::OutOfMemory;
use std::alloc::Global;
use text_parts::{HasText, Parted, append, room_for, texts_of};
use writing::{Text, push_last};
use written::Printout;

/// What is told of some loops of a text.
#[derive(Drop)]
pub(crate) struct ToldLoops {
    pub(crate) text: Vec<u8>,
    /// How many of them have a kernel.
    pub(crate) met: u64,
    /// How many have none.
    pub(crate) failed: u64,
    /// Whether one of them has a value that is live at the end.
    pub(crate) outs: bool,
}

impl ToldLoops {
    /// This text, for the loops of these rows.
    pub(crate) fn new(text: Vec<u8>, rows: &[Row]) -> ToldLoops
        ensures text { result.text ≡ text }
        ensures counted { IsCounted rows.now result }
    {
        ToldLoops {
            text,
            met: number_met(rows) as u64,
            failed: number_failed(rows) as u64,
            outs: has_outs(rows),
        }
    }
}

impl HasText for ToldLoops {
    ghost use Rattle.side_by_side.specs.inner.Told.{text_of_told};

    ghost bytes = { text_of_told };

    fn text(&self) -> &[u8] {
        self.text.as_slice()
    }

    fn into_text(self) -> Vec<u8> {
        self.text
    }
}

/// Whether some loop has a value that is live at the end.
fn has_outs(rows: &[Row]) -> bool
    ensures { result ≡ has_outs rows.now }
{
    rows.iter().any(|row| row.outs > 0)
}

/// Whether one of all loops has a value that is live at the end.
pub(crate) fn some_outs(parts: &[ToldLoops]) -> bool
    ensures { result ≡ list_any outs_of parts.now }
{
    parts.iter().any(|part| part.outs)
}

/// How many of all loops have a kernel.
pub(crate) fn all_met(parts: &[ToldLoops]) -> u64
    requires { number_met_told parts.now < 2 ^ 64 }
    ensures { result ≡ number_met_told parts.now }
{
    parts.iter().map(|part| part.met).sum()
}

/// How many of all loops have none.
pub(crate) fn all_failed(parts: &[ToldLoops]) -> u64
    requires { number_failed_told parts.now < 2 ^ 64 }
    ensures { result ≡ number_failed_told parts.now }
{
    parts.iter().map(|part| part.failed).sum()
}

/// What is told of all loops: this head, the texts of the parts, and the last line with how many loops have a kernel and how many have none.
///
/// # Errors
/// Memory was refused.
pub(crate) fn told_together(
    alloc: Global,
    head: &str,
    parts: Vec<ToldLoops>,
) -> Result<Printout, OutOfMemory>
    requires { number_told parts.items ≤ MAX_LOOPS }
    ensures text { IfOk result (λ w. w.text ≡ (head.now ++ flat_map text_of_told parts.items) ++ last_told parts.items) }
    ensures met { IfOk result (λ w. w.all_met ≡ (number_failed_told parts.items == 0)) }
{
    let met = all_met(parts.as_slice());
    let failed = all_failed(parts.as_slice());
    let mut text = Vec::with_capacity(alloc, room_for(parts.as_slice()))?;
    text.push_piece(head)?;
    append(&mut text, parts)?;
    push_last(&mut text, "loops ", met + failed, met, failed)?;
    Ok(Printout::new(text, failed == 0))
}

/// What is told of all loops: the texts of the parts, and the last line, as [`told_together`] tells them, without a copy of the texts.
///
/// # Errors
/// Memory was refused.
pub(crate) fn told_apart(alloc: Global, parts: Vec<ToldLoops>) -> Result<Parted, OutOfMemory>
    requires { number_told parts.items ≤ MAX_LOOPS }
    ensures text { IfOk result (λ w. w.text ≡ flat_map text_of_told parts.items ++ last_told parts.items) }
    ensures met { IfOk result (λ w. w.all_met ≡ (number_failed_told parts.items == 0)) }
{
    let met = all_met(parts.as_slice());
    let failed = all_failed(parts.as_slice());
    let mut last = Vec::new(alloc);
    push_last(&mut last, "loops ", met + failed, met, failed)?;
    let texts = texts_of(alloc, parts, last)?;
    Ok(Parted::of_texts(texts, failed == 0))
}
