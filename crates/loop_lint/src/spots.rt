//! Where the words of a line stand.

ghost use Rattle.std.specs.Prelude.{◌≡◌, ◌+◌, ◌<◌, ◌^◌, length};
ghost use Rattle.loop_lines.specs.Columns.{placed_words, words_from};
ghost use Rattle.loop_lint.specs.Words.{spot_at};

use crate::scan::first_word;

/// A column, from 1, and how many bytes stand there that are meant.
#[derive(Clone, Copy)]
pub(crate) struct Spot {
    pub(crate) column: usize,
    pub(crate) width: usize,
}

/// Where word `number` stands, counted from 0. If there is no such word, the column after the last one.
#[tactic(auto, using(crate::proofs::Passed::spot_here, crate::proofs::Passed::spot_next, crate::proofs::Passed::spot_none))]
pub(crate) fn spot_at(line: &[u8], number: usize) -> Spot
    requires { length line.now + 1 < 2 ^ 64 }
    ensures { result ≡ spot_at (placed_words line.now) number }
{
    let mut rest = line;
    let mut column = 1;
    let mut left = number;
    while let Some((word, after)) = first_word(rest, column) {
        if left == 0 {
            return Spot {
                column: word.column,
                width: word.bytes.len(),
            };
        }
        left -= 1;
        column = word.column + word.bytes.len();
        rest = after;
    }
    Spot { column, width: 0 }
}
