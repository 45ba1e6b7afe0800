//! Where an operation stands in a schedule.

ghost use Rattle.std.specs.Prelude.{◌≡◌, ◌≤◌, ◌++◌, OnOk};
ghost use Rattle.graph_marks.specs.Nodes.{place_text, spot_text};

use machine_data::OutOfMemory;
use writing::{Text, push_told};

/// How many colors there are.
const COLORS: u64 = 9;

/// Appends the issue time of an operation, its row and its stage.
fn push_spot(text: &mut Vec<u8>, ii: u64, time: u64) -> Result<(), OutOfMemory>
    requires { 1 ≤ ii }
    ensures ok { OnOk result (text.new.items ≡ text.old.items ++ spot_text ii time) }
{
    push_told(text, "\\ntime ", time)?;
    push_told(text, " row ", time % ii)?;
    push_told(text, " stage ", time / ii)
}

/// Appends what the line of an operation has after its names, `\ntime T row W stage G",fillcolor=F]`: its issue time in cycles from the
/// beginning of its iteration, the cycle of the interval in which it is issued, and how many intervals after the beginning of the
/// iteration that is. Operations in one stage have one color, and the next stage has another.
///
/// # Errors
/// [`OutOfMemory`] where memory ran out. The text is left with a part of that.
pub fn push_place(text: &mut Vec<u8>, ii: u64, time: u64) -> Result<(), OutOfMemory>
    requires some { 1 ≤ ii }
    ensures ok { OnOk result (text.new.items ≡ text.old.items ++ place_text ii time) }
{
    push_spot(text, ii, time)?;
    push_told(text, "\",fillcolor=", time / ii % COLORS + 1)?;
    text.push_piece("]\n")
}
