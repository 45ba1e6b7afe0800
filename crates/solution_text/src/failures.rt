//! The text of a problem that has no solution.

ghost use Rattle.std.specs.Prelude.{◌≡◌, ◌++◌, OnOk};
ghost use Rattle.std.specs.List.{flat_map};
ghost use Rattle.std.specs.Option.{option_copied};
ghost use Rattle.modulo.specs.declared.outcome.attempts.Culprit.TheVariants.{Late};
ghost use Rattle.solution_text.specs.Texts.{cause_text, culprit_text, evidence_text, failed_line, failed_text, lack_text, named};

use crate::heads::push_head;
use crate::parts::{Part, push_parts};
use machine_data::OutOfMemory;
use modulo::Culprit;
use problems::{Draft, Problem};
use solutions::Cause;
use writing::Text;

/// Appends a blank, then an operation.
fn push_named(text: &mut Vec<u8>, draft: &Draft, op: usize) -> Result<(), OutOfMemory>
    ensures ok { OnOk result (text.new.items ≡ text.old.items ++ named draft.now op) }
{
    push_parts(text, draft, &[Part::Piece(" "), Part::Operation(op)])
}

/// Appends operations, each after a blank.
fn push_all_named(text: &mut Vec<u8>, draft: &Draft, ops: &[usize]) -> Result<(), OutOfMemory>
    ensures ok { OnOk result (text.new.items ≡ text.old.items ++ flat_map (named draft.now) ops.now) }
{
    for op in ops {
        push_named(text, draft, *op)?;
    }
    Ok(())
}

/// Appends an operation and when it is issued.
fn push_late(text: &mut Vec<u8>, draft: &Draft, op: usize, time: u64) -> Result<(), OutOfMemory>
    ensures ok { OnOk result (text.new.items ≡ text.old.items ++ culprit_text draft.now (Late op time)) }
{
    push_parts(
        text,
        draft,
        &[
            Part::Piece(" "),
            Part::Operation(op),
            Part::Told(" at ", time),
        ],
    )
}

/// Appends the culprits of a failure.
fn push_culprit(text: &mut Vec<u8>, draft: &Draft, culprit: &Culprit) -> Result<(), OutOfMemory>
    ensures ok { OnOk result (text.new.items ≡ text.old.items ++ culprit_text draft.now culprit.now) }
{
    match culprit {
        Culprit::Blocked(op) => push_named(text, draft, *op),
        Culprit::Unplaced(ops) => push_all_named(text, draft, ops.as_slice()),
        Culprit::Late(op, time) => push_late(text, draft, *op, *time),
    }
}

/// Appends a cause, and its culprits, where that is known.
fn push_evidence(
    text: &mut Vec<u8>,
    draft: &Draft,
    word: &str,
    culprit: Option<&Culprit>,
) -> Result<(), OutOfMemory>
    ensures ok { OnOk result (text.new.items ≡ text.old.items ++ (word.now ++ evidence_text draft.now (option_copied culprit.entry))) }
{
    text.push_piece(word)?;
    match culprit {
        None => Ok(()),
        Some(culprit) => {
            text.push_piece(":")?;
            push_culprit(text, draft, culprit)
        }
    }
}

/// Appends the file that has too few registers, and its first value that has none.
fn push_lack(
    text: &mut Vec<u8>,
    draft: &Draft,
    file: usize,
    value: usize,
) -> Result<(), OutOfMemory>
    ensures ok { OnOk result (text.new.items ≡ text.old.items ++ lack_text draft.now file value) }
{
    push_parts(
        text,
        draft,
        &[
            Part::Piece("registers of "),
            Part::File(file),
            Part::Piece(": "),
            Part::Value(value),
        ],
    )
}

/// Appends a cause by which an interval gives no solution, with its culprits, where that is known: of a lack of registers the
/// file and the value that has none, of the other causes the culprit that is given.
///
/// # Errors
/// [`OutOfMemory`] where memory ran out. The text is left with a part of all that.
pub fn push_cause(
    text: &mut Vec<u8>,
    draft: &Draft,
    cause: Cause,
    culprit: Option<&Culprit>,
) -> Result<(), OutOfMemory>
    ensures ok { OnOk result (text.new.items ≡ text.old.items ++ cause_text draft.now cause (option_copied culprit.entry)) }
{
    match cause {
        Cause::Table => push_evidence(text, draft, "table", culprit),
        Cause::Budget => push_evidence(text, draft, "budget", culprit),
        Cause::Stages => push_evidence(text, draft, "stages", culprit),
        Cause::Registers(file, value) => push_lack(text, draft, file, value),
    }
}

/// Appends the line of a failure.
fn push_failure(
    text: &mut Vec<u8>,
    name: &str,
    problem: &Problem,
    cause: Cause,
    culprit: Option<&Culprit>,
) -> Result<(), OutOfMemory>
    ensures ok { OnOk result (text.new.items ≡ text.old.items ++ failed_line name.now problem.now cause (option_copied culprit.entry)) }
{
    let scheduling = problem.scheduling();
    let draft = problem.draft();
    push_parts(
        text,
        draft,
        &[
            Part::Piece("# failed "),
            Part::Piece(name),
            Part::Told(" at ", scheduling.mii() + scheduling.ceiling()),
            Part::Piece(": "),
        ],
    )?;
    push_cause(text, draft, cause, culprit)?;
    text.push_piece("\n")
}

/// Appends the text of a problem that has no solution: its bounds, other lines on it that are given as they are, and why the last
/// interval that is tried gives none, with its culprits, where that is known: of a lack of registers the file and the value
/// that has none, of the other causes the culprit that is given.
///
/// # Errors
/// [`OutOfMemory`] where memory ran out. The text is left with a part of all that.
pub fn push_failed(
    text: &mut Vec<u8>,
    name: &str,
    notes: &[u8],
    problem: &Problem,
    cause: Cause,
    culprit: Option<&Culprit>,
) -> Result<(), OutOfMemory>
    ensures ok { OnOk result (text.new.items ≡ text.old.items ++ failed_text name.now notes.now problem.now cause (option_copied culprit.entry)) }
{
    push_head(text, name, notes, problem)?;
    push_failure(text, name, problem, cause, culprit)
}
