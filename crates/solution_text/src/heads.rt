//! The lines that the text of a problem begins with.

ghost use Rattle.std.specs.Prelude.{◌≡◌, ◌++◌, OnOk};
ghost use Rattle.solution_text.specs.Heads.{bounds_line, head_text};

use crate::parts::{Part, push_parts};
use machine_data::OutOfMemory;
use problems::Problem;

/// Appends the line of a problem and its bounds.
fn push_bounds(text: &mut Vec<u8>, name: &str, problem: &Problem) -> Result<(), OutOfMemory>
    ensures ok { OnOk result (text.new.items ≡ text.old.items ++ bounds_line name.now problem.now) }
{
    let scheduling = problem.scheduling();
    push_parts(
        text,
        problem.draft(),
        &[
            Part::Piece("# "),
            Part::Piece(name),
            Part::Told(" ops ", scheduling.operations() as u64),
            Part::Told(" res ", scheduling.resources()),
            Part::Told(" rec ", scheduling.recurrences()),
            Part::Told(" mii ", scheduling.mii()),
            Part::Piece("\n"),
        ],
    )
}

/// Appends this line, and other lines on the problem.
pub(crate) fn push_head(
    text: &mut Vec<u8>,
    name: &str,
    notes: &[u8],
    problem: &Problem,
) -> Result<(), OutOfMemory>
    ensures ok { OnOk result (text.new.items ≡ text.old.items ++ head_text name.now notes.now problem.now) }
{
    push_bounds(text, name, problem)?;
    text.extend_from_slice(notes)
}
