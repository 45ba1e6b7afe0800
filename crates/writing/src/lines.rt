//! Ends of lines, and last lines.

ghost use Rattle.std.specs.Prelude.{◌≡◌, ◌++◌, OnOk, OnErr};
ghost use Rattle.writing.specs.Words.{ended, last_line};
ghost use Rattle.writing.specs.Texts.{HasPart};

use crate::OutOfMemory;
use crate::parts::{push_both, push_told};
use crate::text::Text;

/// Pushes a piece and a line feed.
///
/// # Errors
/// [`OutOfMemory`] where memory ran out. The text has the beginning of both after it, or nothing of them.
pub fn push_line<T: Text>(text: &mut T, piece: &str) -> Result<(), OutOfMemory>
    ensures ok { OnOk result (T.bytes text.new ≡ T.bytes text.old ++ ended piece.now) }
    ensures err { OnErr result (HasPart (T.bytes text.old) (ended piece.now) (T.bytes text.new)) }
{
    push_both(text, piece, "\n")
}

/// Pushes the line that a text of many things ends with: how many there are, after a word, how many are met and how many
/// have failed.
///
/// # Errors
/// [`OutOfMemory`] where memory ran out. The text has the beginning of the line after it, or nothing of it.
pub fn push_last<T: Text>(
    text: &mut T,
    word: &str,
    all: u64,
    met: u64,
    failed: u64,
) -> Result<(), OutOfMemory>
    ensures ok { OnOk result (T.bytes text.new ≡ T.bytes text.old ++ last_line word.now all met failed) }
    ensures err { OnErr result (HasPart (T.bytes text.old) (last_line word.now all met failed) (T.bytes text.new)) }
{
    push_told(text, word, all)?;
    push_told(text, " met ", met)?;
    push_told(text, " failed ", failed)?;
    text.push_piece("\n")
}
