//! The lines of the register files of a solution.

ghost use Rattle.std.specs.Prelude.{◌≡◌, ◌++◌, ◌<◌, length, slice_get, OnOk};
ghost use Rattle.std.specs.List.{list_any};
ghost use Rattle.solution_text.specs.Files.{file_line, file_lines, is_free, size_text, unroll_line};
ghost use Rattle.solution_text.specs.inner.Parts.{part_text};

use crate::parts::{Part, push_parts};
use machine_data::OutOfMemory;
use problems::{Draft, File};
use solutions::Solution;
use writing::{Text, push_told};

/// How many registers a file has, where it is rotating.
fn size_of(draft: &Draft, file: usize) -> Part<'static>
    ensures { part_text draft.now result ≡ size_text (slice_get draft.now.files.items file) }
{
    match draft.files.get(file) {
        Some(File::Rotating(registers)) => Part::Told(" of ", *registers as u64),
        _ => Part::Piece(""),
    }
}

/// Appends the line of a file.
#[tactic(auto, unfolding(crate::specs::Files::file_line))]
fn push_file(text: &mut Vec<u8>, solution: &Solution, file: usize) -> Result<(), OutOfMemory>
    ensures ok { OnOk result (text.new.items ≡ text.old.items ++ file_line solution.now file) }
{
    let draft = solution.problem().draft();
    push_parts(
        text,
        draft,
        &[
            Part::Piece("# file "),
            Part::File(file),
            Part::Told(" max_live ", solution.max_live(file)),
            size_of(draft, file),
            Part::Piece("\n"),
        ],
    )
}

/// Appends the lines of all files, in order.
pub(crate) fn push_files(text: &mut Vec<u8>, solution: &Solution) -> Result<(), OutOfMemory>
    ensures ok { OnOk result (text.new.items ≡ text.old.items ++ file_lines solution.now) }
{
    for file in 0..solution.problem().draft().files.len() {
        push_file(text, solution, file)?;
    }
    Ok(())
}

/// Whether some file is unallotted.
pub fn has_free(files: &[File]) -> bool
    ensures { result ≡ list_any is_free files.now }
{
    files.iter().any(|file| matches!(file, File::Unallotted))
}

/// Appends how often the body of a loop is repeated, where some file is unallotted.
pub(crate) fn push_unroll(text: &mut Vec<u8>, solution: &Solution) -> Result<(), OutOfMemory>
    ensures ok { OnOk result (text.new.items ≡ text.old.items ++ unroll_line solution.now) }
{
    if !has_free(solution.problem().draft().files.as_slice()) {
        return Ok(());
    }
    push_told(text, "# unroll ", solution.unroll())?;
    text.push_piece("\n")
}
