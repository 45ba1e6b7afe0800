//! Places in texts, as lines of faults begin.

ghost use Rattle.std.specs.Prelude.{◌≡◌, ◌++◌, OnOk};
ghost use Rattle.lint_text.specs.Lines.{place_text};

use machine_data::OutOfMemory;
use writing::{Text, push_told};

/// Pushes the path of a text with a line and a column in it.
pub(crate) fn push_place(
    text: &mut Vec<u8>,
    path: &str,
    line: usize,
    column: usize,
) -> Result<(), OutOfMemory>
    ensures { OnOk result (text.new.items ≡ text.old.items ++ place_text path.now line column) }
{
    text.push_piece(path)?;
    push_told(text, ":", line as u64)?;
    push_told(text, ":", column as u64)?;
    text.push_piece(": ")
}
