//! A delay and a distance, as words.

ghost use Rattle.std.specs.Prelude.{◌≡◌, ◌++◌, OnOk};
ghost use Rattle.graph_text.specs.Edges.{sums_told};

use machine_data::OutOfMemory;
use writing::{push_signed, push_told};

/// Appends a delay, in cycles, and a distance, in iterations: ` delay D distance N`.
///
/// # Errors
/// [`OutOfMemory`] where memory ran out. The text is left with a part of that.
pub fn push_sums(text: &mut Vec<u8>, delay: i64, distance: u64) -> Result<(), OutOfMemory>
    ensures ok { OnOk result (text.new.items ≡ text.old.items ++ sums_told delay distance) }
{
    push_signed(text, " delay ", delay)?;
    push_told(text, " distance ", distance)
}
