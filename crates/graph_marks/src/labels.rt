//! What came out, in the label of a graph, and how its operations look.

ghost use Rattle.std.specs.Prelude.{◌≡◌, ◌++◌, OnOk};
ghost use Rattle.graph_marks.specs.Labels.{failed_label, met_label, nodes_filled, nodes_plain};

use machine_data::OutOfMemory;
use writing::{Text, push_both, push_told};

/// Appends ` ii I stages S`: an interval, in cycles, and how many stages its schedule has.
///
/// # Errors
/// [`OutOfMemory`] where memory ran out. The text is left with a part of that.
pub fn push_met_label(text: &mut Vec<u8>, ii: u64, stages: u64) -> Result<(), OutOfMemory>
    ensures ok { OnOk result (text.new.items ≡ text.old.items ++ met_label ii stages) }
{
    push_told(text, " ii ", ii)?;
    push_told(text, " stages ", stages)
}

/// Appends ` failed to T: CAUSE`: the last interval that was tried, in cycles, and the word of why it gives nothing.
///
/// # Errors
/// [`OutOfMemory`] where memory ran out. The text is left with a part of that.
pub fn push_failed_label(text: &mut Vec<u8>, last: u64, cause: &str) -> Result<(), OutOfMemory>
    ensures ok { OnOk result (text.new.items ≡ text.old.items ++ failed_label last cause.now) }
{
    push_told(text, " failed to ", last)?;
    push_both(text, ": ", cause)
}

/// Appends the end of the label, and the line by which operations are filled boxes, each in one of nine pale colors.
///
/// # Errors
/// [`OutOfMemory`] where memory ran out. The text is left with a part of that.
pub fn push_nodes_filled(text: &mut Vec<u8>) -> Result<(), OutOfMemory>
    ensures ok { OnOk result (text.new.items ≡ text.old.items ++ nodes_filled) }
{
    text.push_piece("\"\n  node [shape=box,style=filled,colorscheme=pastel19]\n")
}

/// Appends the end of the label, and the line by which operations are boxes.
///
/// # Errors
/// [`OutOfMemory`] where memory ran out. The text is left with a part of that.
pub fn push_nodes_plain(text: &mut Vec<u8>) -> Result<(), OutOfMemory>
    ensures ok { OnOk result (text.new.items ≡ text.old.items ++ nodes_plain) }
{
    text.push_piece("\"\n  node [shape=box]\n")
}
