//! The document of several loops, by its parts.

ghost use Rattle.std.specs.Prelude.{◌≡◌, ◌++◌, OnOk};
ghost use Rattle.json_objects.specs.Documents.{head_text, tail_text};

use machine_data::OutOfMemory;
use writing::{Text, push_told};

/// Appends the part of a document before its loops, of which `failed` have no kernel. The loops follow, each as a JSON object, with a
/// comma between two.
///
/// # Errors
/// [`OutOfMemory`] where memory ran out. The text is then of no use.
pub fn push_head<T: Text>(text: &mut T, failed: u64) -> Result<(), OutOfMemory>
    ensures ok { OnOk result (T.bytes text.new ≡ T.bytes text.old ++ head_text failed) }
{
    push_told(text, "{\"failed\":", failed)?;
    text.push_piece(",\"loops\":[")
}

/// Appends the part of a document after its loops, of which `met` have a kernel.
///
/// # Errors
/// [`OutOfMemory`] where memory ran out. The text is then of no use.
pub fn push_tail<T: Text>(text: &mut T, met: u64) -> Result<(), OutOfMemory>
    ensures ok { OnOk result (T.bytes text.new ≡ T.bytes text.old ++ tail_text met) }
{
    push_told(text, "],\"met\":", met)?;
    text.push_piece(",\"version\":1}\n")
}
