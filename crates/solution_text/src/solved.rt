//! The text of a problem that is solved.

ghost use Rattle.std.specs.Prelude.{◌≡◌, ◌++◌, OnOk};
ghost use Rattle.solution_text.specs.Texts.{solution_line, solution_lines, solution_text};

use crate::files::{push_files, push_unroll};
use crate::heads::push_head;
use crate::operations::push_ops;
use crate::parts::{Part, push_parts};
use crate::values::{push_initials, push_values};
use machine_data::OutOfMemory;
use solutions::Solution;
use writing::Text;

/// Appends the line that a solution begins with.
fn push_first(text: &mut Vec<u8>, name: &str, solution: &Solution) -> Result<(), OutOfMemory>
    ensures ok { OnOk result (text.new.items ≡ text.old.items ++ solution_line name.now solution.now) }
{
    push_parts(
        text,
        solution.problem().draft(),
        &[
            Part::Piece("solution "),
            Part::Piece(name),
            Part::Told(" ii ", solution.ii()),
            Part::Told(" # stages ", solution.stages()),
            Part::Piece("\n"),
        ],
    )
}

/// Appends the lines of a solution.
#[tactic(auto, unfolding(crate::specs::Texts::solution_lines))]
fn push_lines(text: &mut Vec<u8>, name: &str, solution: &Solution) -> Result<(), OutOfMemory>
    ensures ok { OnOk result (text.new.items ≡ text.old.items ++ solution_lines name.now solution.now) }
{
    push_first(text, name, solution)?;
    push_ops(text, solution)?;
    push_values(text, solution)?;
    push_initials(text, solution)?;
    push_files(text, solution)?;
    push_unroll(text, solution)?;
    text.push_piece("end\n")
}

/// Appends the text of a problem that is solved: its bounds, other lines on it that are given as they are, and its solution.
/// A part of the problem that has no name is told by its number.
///
/// # Errors
/// [`OutOfMemory`] where memory ran out. The text is left with a part of all that.
pub fn push_solution(
    text: &mut Vec<u8>,
    name: &str,
    notes: &[u8],
    solution: &Solution,
) -> Result<(), OutOfMemory>
    ensures ok { OnOk result (text.new.items ≡ text.old.items ++ solution_text name.now notes.now solution.now) }
{
    push_head(text, name, notes, solution.problem())?;
    push_lines(text, name, solution)
}
