//! The texts of all parts, as one text or one after another.

ghost use Rattle.std.specs.Prelude.{◌≡◌, ◌+◌, ◌-◌, ◌^◌, ◌++◌, IfOk, OnOk, length, min};
ghost use Rattle.std.specs.List.{flat_map, sum_by};
ghost use Rattle.text_parts.specs.Parted.{joined_text};
ghost use Rattle.text_parts.specs.Parts.{text_of};

use crate::part::{HasText, Part};
use machine_data::OutOfMemory;
use std::alloc::Global;

/// Room for what stands before and after the parts, in bytes: the first and the last line of a text.
const LAST: usize = 128;

/// The texts of parts, one after another. Each part is given back as soon as it is joined, so that none is held twice
/// but the one at hand.
///
/// # Errors
/// Memory was refused.
pub fn joined(alloc: Global, parts: Vec<Part>) -> Result<Vec<u8>, OutOfMemory>
    ensures { IfOk result (λ text. text.items ≡ flat_map text_of parts.items) }
{
    let mut whole = Vec::with_capacity(alloc, room_for(parts.as_slice()))?;
    append(&mut whole, parts)?;
    Ok(whole)
}

/// For how many bytes a text of these parts is to have room: those of their texts, and 128 for what stands before and after
/// them.
pub fn room_for<P: HasText>(parts: &[P]) -> usize
    ensures { result ≡ min (128 + sum_by (λ (part : _). length (P.HasText.bytes part)) parts.now) (2 ^ 64 - 1) }
{
    let mut room = LAST;
    for part in parts {
        room = room.saturating_add(part.text().len());
    }
    room
}

/// Appends the texts of parts, one after another.
///
/// # Errors
/// Memory was refused. The text is left with some of them.
pub fn append<P: HasText>(text: &mut Vec<u8>, parts: Vec<P>) -> Result<(), OutOfMemory>
    ensures { OnOk result (text.new.items ≡ text.old.items ++ flat_map P.HasText.bytes parts.items) }
{
    let mut parts = parts.into_iter();
    while let Some(part) = parts.next() {
        if let Err(fault) = text.extend_from_slice(part.text()) {
            return Err(fault);
        }
    }
    Ok(())
}

/// How many bytes a text has, on average, that is written by itself and not copied.
const LONG: usize = 65_536;

/// The texts of parts, one after another, and a last one. Long texts are not copied. Short ones are joined, since it takes
/// less time to copy them than to write each by itself.
///
/// # Errors
/// Memory was refused.
pub fn texts_of<P: HasText>(
    alloc: Global,
    parts: Vec<P>,
    last: Vec<u8>,
) -> Result<Vec<Vec<u8>>, OutOfMemory>
    ensures { IfOk result (λ texts. joined_text texts.items ≡ flat_map P.HasText.bytes parts.items ++ last.items) }
{
    if room_for(parts.as_slice()) / LONG < parts.len() {
        return one_text(alloc, parts, last);
    }
    let mut texts = Vec::with_capacity(alloc, parts.len().saturating_add(1))?;
    move_texts(&mut texts, parts)?;
    texts.push(last)?;
    Ok(texts)
}

/// The same as one text.
fn one_text<P: HasText>(
    alloc: Global,
    parts: Vec<P>,
    last: Vec<u8>,
) -> Result<Vec<Vec<u8>>, OutOfMemory>
    ensures { IfOk result (λ texts. joined_text texts.items ≡ flat_map P.HasText.bytes parts.items ++ last.items) }
{
    let room = room_for(parts.as_slice());
    let mut text = Vec::with_capacity(alloc, room)?;
    append(&mut text, parts)?;
    text.extend_from_slice(last.as_slice())?;
    let mut texts = Vec::with_capacity(alloc, 1)?;
    texts.push(text)?;
    Ok(texts)
}

/// Appends the texts of parts to a list of texts. They are not copied.
///
/// # Errors
/// Memory was refused. The list is left with some of them.
pub fn move_texts<P: HasText>(texts: &mut Vec<Vec<u8>>, parts: Vec<P>) -> Result<(), OutOfMemory>
    ensures { OnOk result (joined_text texts.new.items ≡ joined_text texts.old.items ++ flat_map P.HasText.bytes parts.items) }
{
    let mut parts = parts.into_iter();
    while let Some(part) = parts.next() {
        texts.push(part.into_text())?;
    }
    Ok(())
}
