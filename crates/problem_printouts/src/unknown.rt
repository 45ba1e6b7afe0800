//! Names in a text of solutions that are unknown: a problem's that is not there, or one of none of its parts.

ghost use Rattle.std.specs.Prelude.{◌≡◌, ◌<◌, length, IfOk};
ghost use Rattle.solution_reader.specs.Resolved.{solution_at};
ghost use Rattle.problem_printouts.specs.Judging.{first_unknown, problem_names, unknown_of};
ghost use Rattle.problem_printouts.specs.inner.Known.{AreNumbers};

use crate::known::numbers_of;
use machine_data::OutOfMemory;
use problem_reader::ProblemFile;
use solution_reader::{Part, SolutionFault, SolutionFile, Wrong};
use std::alloc::Global;
use std::collections::BTreeMap;

/// The first unknown name of a solution.
fn unknown_of(
    alloc: Global,
    file: &ProblemFile,
    list: &SolutionFile<'_>,
    numbers: &BTreeMap<&[u8], usize>,
    number: usize,
) -> Result<Option<SolutionFault>, OutOfMemory>
    requires there { number < length list.now }
    requires known { AreNumbers (problem_names file.now) numbers.now }
    ensures { IfOk result (λ fault. fault ≡ unknown_of file.now (solution_at list.now number)) }
{
    let name = list.name(number);
    match numbers.get(name.bytes) {
        Some(problem) => {
            let draft = file.draft(alloc, *problem)?;
            list.unknown(alloc, number, &draft)
        }
        None => Ok(Some(SolutionFault {
            line: list.line(number),
            column: name.column,
            width: name.bytes.len(),
            what: Wrong::Unknown(Part::Solutions),
        })),
    }
}

/// The first unknown name of all solutions, in the order of their text.
pub(crate) fn first_unknown(
    alloc: Global,
    file: &ProblemFile,
    list: &SolutionFile<'_>,
) -> Result<Option<SolutionFault>, OutOfMemory>
    ensures { IfOk result (λ fault. fault ≡ first_unknown file.now list.now) }
{
    let numbers = numbers_of(alloc, file)?;
    for number in 0..list.solutions() {
        if let Some(fault) = unknown_of(alloc, file, list, &numbers, number)? {
            return Ok(Some(fault));
        }
    }
    Ok(None)
}
