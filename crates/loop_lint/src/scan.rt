//! The first word of a rest of a line.

ghost use Rattle.std.specs.Prelude.{◌≡◌, ◌+◌, ◌<◌, ◌^◌, [], ◌∷◌, length, slice_index_or, IfSome, MatchOption};
ghost use Rattle.loop_lines.specs.Columns.{column_after, words_from};
ghost use Rattle.loop_lines.specs.Words.{words_of};
ghost use Rattle.loop_lint.specs.inner.Pieces.{placed};

use loop_lines::{count_word, past_blanks};

/// A word where it stands.
#[derive(Clone, Copy)]
pub(crate) struct Piece<'a> {
    pub(crate) bytes: &'a [u8],
    /// The column of its first byte, from 1.
    pub(crate) column: usize,
}

/// The first word of a rest of a line that begins at a column, and what follows it.
#[tactic(auto, using(loop_lines::proofs::Columns::words_none))]
pub(crate) fn first_word(rest: &[u8], column: usize) -> Option<(Piece<'_>, &[u8])>
    requires { column + length rest.now < 2 ^ 64 }
    ensures words { MatchOption result (words_from column rest.now ≡ []) (λ x. words_from column rest.now ≡ placed x.0 ∷ words_from (column_after (placed x.0)) x.1.now) }
    ensures room { IfSome result (λ x. column_after (placed x.0) + length x.1.now < 2 ^ 64) }
    ensures shorter { IfSome result (λ x. length x.1.now < length rest.now) }
{
    let (text, start) = past_blanks(rest, column);
    let count = count_word(text);
    if count == 0 {
        return None;
    }
    let (bytes, after) = text.split_at(count);
    Some((
        Piece {
            bytes,
            column: start,
        },
        after,
    ))
}

/// The next word of a rest of a line, and what follows it.
#[tactic(auto, using(crate::proofs::Cuts::next_none, crate::proofs::Cuts::next_some))]
pub(crate) fn next_word(rest: &[u8]) -> Option<(&[u8], &[u8])>
    ensures words { MatchOption result (words_of rest.now ≡ []) (λ x. words_of rest.now ≡ x.0.now ∷ words_of x.1.now) }
    ensures shorter { IfSome result (λ x. length x.1.now < length rest.now) }
{
    let (word, after) = first_word(rest, 1)?;
    Some((word.bytes, after))
}

/// The word with this number, from 0, or nothing where there are fewer.
pub(crate) fn word_at(line: &[u8], number: usize) -> &[u8]
    ensures { result.now ≡ slice_index_or (words_of line.now) number [] }
{
    let mut rest = line;
    let mut left = number;
    while let Some((word, after)) = next_word(rest) {
        if left == 0 {
            return word;
        }
        left -= 1;
        rest = after;
    }
    &[]
}
