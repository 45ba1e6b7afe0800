//! A text cut into pieces.

ghost use Rattle.std.specs.Prelude.{◌≡◌, ◌+◌, ◌/◌, ◌<◌, ◌≤◌, [], IfOk, length, min, take, vec_capacity};
ghost use Rattle.workers.specs.Apart.{EndsLine};
ghost use Rattle.workers.specs.inner.Pieces.{IsCut};

use machine_data::OutOfMemory;
use std::alloc::Global;

/// The least part of a text that is worth a worker, in bytes: so much takes longer to read than a thread takes to start.
const PIECE: usize = 32_768;

/// How a piece that others follow ends: with a line `end`, after the line before it.
const END: &[u8] = b"\nend\n";

/// Into how many pieces a text of this length is cut, at most: one for each worker, and none that is not worth a worker.
pub(crate) fn piece_count(length: usize, workers: usize) -> usize
    ensures { result ≡ min workers (length / PIECE) }
{
    workers.min(length / PIECE)
}

/// A text cut into at most `count` pieces of about one length. Each but the last ends with a line `end`, so that a text
/// with few such lines comes to fewer pieces.
pub(crate) fn pieces_of<'a>(
    alloc: Global,
    text: &'a [u8],
    count: usize,
) -> Result<Vec<&'a [u8]>, OutOfMemory>
    requires { 0 < count }
    ensures { IfOk result (λ pieces. IsCut text.now pieces.items) }
{
    let mut pieces = Vec::with_capacity(alloc, count)?;
    cut_into(&mut pieces, text, count);
    Ok(pieces)
}

/// Adds the pieces of a text, at most `count`.
fn cut_into<'a>(pieces: &mut Vec<&'a [u8]>, text: &'a [u8], count: usize)
    requires some { 0 < count }
    requires room { count ≤ vec_capacity pieces.old }
    requires empty { pieces.old.items ≡ [] }
    ensures { IsCut text.now pieces.new.items }
{
    let mut rest = text;
    for cut in 1..count {
        let at = after_end(rest, rest.len() / (count - cut + 1));
        if at >= rest.len() {
            break;
        }
        let (piece, after) = rest.split_at(at);
        pieces.push_reserved(piece);
        rest = after;
    }
    pieces.push_reserved(rest);
}

/// The first place after a line `end` and the line before it that is not before `least`; the text's length where there is none.
fn after_end(text: &[u8], least: usize) -> usize
    ensures within { result ≤ length text.now }
    ensures line { result < length text.now → EndsLine (take result text.now) }
{
    for at in least.saturating_sub(END.len())..text.len() {
        if text[at..].starts_with(END) {
            return at + END.len();
        }
    }
    text.len()
}
