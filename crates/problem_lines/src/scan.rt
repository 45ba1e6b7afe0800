//! The first word of a rest of a line.

ghost use Rattle.std.specs.Prelude.{◌≡◌, ℕ, ◌+◌, ◌<◌, ◌≤◌, ◌^◌, [], ◌∷◌, length, take, slice_index, true, false, IfSome, MatchOption};
ghost use Rattle.std.specs.List.{list_all, position_or_len};
ghost use Rattle.loop_lines.specs.Columns.{column_after, words_from};
ghost use Rattle.loop_lines.specs.Words.{stops_word};
ghost use Rattle.problem_lines.specs.Names.{is_printable};
ghost use Rattle.problem_lines.specs.inner.Pieces.{placed};

use crate::eights::count_named;
use crate::names::is_printable;
use crate::piece::Piece;
use loop_lines::{ends_word, past_blanks};

/// How far a word goes.
#[derive(Clone, Copy)]
struct Extent {
    count: usize,
    /// Whether all its bytes may stand in a name.
    printable: bool,
}

/// How far the first word goes, of which the bytes before a place may stand in a name.
#[cold]
fn count_odd(text: &[u8], from: usize) -> Extent
    requires within { from ≤ length text.now }
    requires named { (k : ℕ) → k < from → is_printable (slice_index text.now k) ≡ true }
    ensures count { result.count ≡ position_or_len stops_word text.now }
    ensures printable { result.printable ≡ list_all is_printable (take result.count text.now) }
{
    let mut printable = true;
    let mut at = from;
    while at < text.len() {
        let byte = text[at];
        if !is_printable(byte) {
            if ends_word(byte) {
                return Extent {
                    count: at,
                    printable,
                };
            }
            printable = false;
        }
        at += 1;
    }
    Extent {
        count: text.len(),
        printable,
    }
}

/// How many bytes stand before the first blank or `#`, and whether all of them may stand in a name.
#[inline(always)]
fn count_word(text: &[u8]) -> Extent
    ensures count { result.count ≡ position_or_len stops_word text.now }
    ensures printable { result.printable ≡ list_all is_printable (take result.count text.now) }
{
    // (most words are names and numbers, and a space or nothing follows them)
    let count = count_named(text);
    if count == text.len() {
        return Extent {
            count,
            printable: true,
        };
    }
    if text[count] == b' ' {
        return Extent {
            count,
            printable: true,
        };
    }
    count_odd(text, count)
}

/// The first word of a rest of a line that begins at a column, and what follows it.
#[tactic(auto, using(loop_lines::proofs::Columns::words_none))]
pub(crate) fn first_word(rest: &[u8], column: usize) -> Option<(Piece<'_>, &[u8])>
    requires { column + length rest.now < 2 ^ 64 }
    ensures words { MatchOption result (words_from column rest.now ≡ []) (λ x. words_from column rest.now ≡ placed x.0 ∷ words_from (column_after (placed x.0)) x.1.now) }
    ensures room { IfSome result (λ x. column_after (placed x.0) + length x.1.now < 2 ^ 64) }
{
    let (text, start) = past_blanks(rest, column);
    let word = count_word(text);
    if word.count == 0 {
        return None;
    }
    let (bytes, after) = text.split_at(word.count);
    Some((
        Piece {
            bytes,
            column: start,
            printable: word.printable,
        },
        after,
    ))
}
