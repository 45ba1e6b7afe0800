//! The last line of what tells of all loops alike.

ghost use Rattle.std.specs.Prelude.{◌≡◌, ◌++◌, OnOk};
ghost use Rattle.listing_printouts.specs.Last.{last_line};

use machine_data::OutOfMemory;
use writing::{Text, push_told};

/// Appends the last line of `plain`, `bounds` and others, with the number of loops.
///
/// # Errors
/// Memory was refused. The text is left with a part of that.
pub fn push_last(text: &mut Vec<u8>, loops: u64) -> Result<(), OutOfMemory>
    ensures ok { OnOk result (text.new.items ≡ text.old.items ++ last_line loops) }
{
    push_told(text, "loops ", loops)?;
    text.push_piece("\n")
}
