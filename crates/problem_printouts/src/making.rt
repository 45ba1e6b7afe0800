//! The problems of a file, made of their drafts.

ghost use Rattle.std.specs.Prelude.{◌≡◌, ◌<◌, length, IfOk};
ghost use Rattle.problem_reader.specs.Files.{problem_at};
ghost use Rattle.problem_printouts.specs.Problems.{IsProblemIn};

use machine_data::OutOfMemory;
use problem_reader::{KeptDrafts, ProblemFile};
use problems::Problem;
use settings::Settings;
use std::alloc::Global;

/// The problem of a file with a number, from 0. No draft of a file is at fault.
pub(crate) fn problem_in(
    alloc: Global,
    file: &ProblemFile,
    number: usize,
    settings: &Settings,
) -> Result<Problem, OutOfMemory>
    requires { number < length file.now.problems }
    ensures { IfOk result (IsProblemIn file.now settings.now.ratio settings.now.ceiling (problem_at file.now number)) }
{
    let draft = file.draft(alloc, number)?;
    let problem = Problem::of_faultless(alloc, draft, settings)?;
    Ok(problem)
}

/// The same of one of a file's problems that are made one after another.
pub(crate) fn problem_by(
    alloc: Global,
    drafts: &mut KeptDrafts<'_>,
    number: usize,
    settings: &Settings,
) -> Result<Problem, OutOfMemory>
    requires { number < length drafts.old.problems }
    ensures same { drafts.new ≡ drafts.old }
    ensures made { IfOk result (IsProblemIn drafts.old settings.now.ratio settings.now.ceiling (problem_at drafts.old number)) }
{
    let draft = drafts.draft(alloc, number)?;
    let problem = Problem::of_faultless(alloc, draft, settings)?;
    Ok(problem)
}
