//! Blanks in front of a word.

ghost use Rattle.std.specs.Prelude.{◌≡◌, ◌+◌, ◌<◌, ◌≤◌, ◌^◌, length, false};
ghost use Rattle.loop_lines.specs.Columns.{words_from};
ghost use Rattle.loop_lines.specs.Words.{starts_blank};

use crate::words::is_blank;

/// What follows the blanks in front of a rest of a line that begins at a column, and the column where it
/// begins.
#[inline]
#[tactic(auto, using(crate::proofs::Columns::blank_passed))]
pub fn past_blanks(text: &[u8], column: usize) -> (&[u8], usize)
    requires { column + length text.now < 2 ^ 64 }
    ensures same_words { words_from result.1 result.0.now ≡ words_from column text.now }
    ensures no_blank { starts_blank result.0.now ≡ false }
    ensures same_end { result.1 + length result.0.now ≡ column + length text.now }
    ensures no_longer { length result.0.now ≤ length text.now }
{
    let mut rest = text;
    let mut at = column;
    while let [first, more @ ..] = rest {
        if !is_blank(*first) {
            break;
        }
        rest = more;
        at += 1;
    }
    (rest, at)
}
