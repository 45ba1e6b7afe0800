//! What a check says of a problem, in one line: that a solution is one, what it breaks first, or what it lacks.

ghost use Rattle.std.specs.Prelude.{◌≡◌, ◌++◌, codes, OnOk};
ghost use Rattle.writing.specs.Words.{told};
ghost use Rattle.solution_text.specs.Names.{op_name, value_name};
ghost use Rattle.solution_text.specs.Verdicts.{breach_text, broken_line, broken_text, early_text, edge_text, holders_text, missing_text, ok_line, registers_text};

use crate::named::Register;
use crate::parts::{Part, push_parts};
use edges::Edge;
use machine_data::OutOfMemory;
use problems::Draft;
use schedules::Breach;
use solutions::{Broken, Solution};
use writing::{Text, push_both, push_told};

/// What a text of solutions lacks of a problem's solution. Numbers count from 0.
#[derive(Clone, Copy, PartialEq, Eq)]
pub enum Missing {
    /// It has no solution of the problem.
    Solution,
    /// The solution has no time of this operation.
    Time(usize),
    /// The solution has no number of this value.
    Number(usize),
}

/// Appends what one or two operations hold at once, and in which row.
fn push_holders(
    text: &mut Vec<u8>,
    draft: &Draft,
    earlier: usize,
    later: usize,
    unit: usize,
    row: u64,
) -> Result<(), OutOfMemory>
    ensures ok { OnOk result (text.new.items ≡ text.old.items ++ (holders_text draft.now earlier later unit ++ told (codes " in row ") row)) }
{
    if earlier == later {
        push_parts(
            text,
            draft,
            &[
                Part::Operation(later),
                Part::Piece(" holds "),
                Part::Unit(unit),
                Part::Piece(" twice"),
                Part::Told(" in row ", row),
            ],
        )
    } else {
        push_parts(
            text,
            draft,
            &[
                Part::Operation(earlier),
                Part::Piece(" and "),
                Part::Operation(later),
                Part::Piece(" both hold "),
                Part::Unit(unit),
                Part::Told(" in row ", row),
            ],
        )
    }
}

/// Appends an edge.
fn push_edge(text: &mut Vec<u8>, draft: &Draft, edge: Edge) -> Result<(), OutOfMemory>
    ensures ok { OnOk result (text.new.items ≡ text.old.items ++ edge_text draft.now edge) }
{
    push_parts(
        text,
        draft,
        &[
            Part::Operation(usize::from(edge.from)),
            Part::Piece(" to "),
            Part::Operation(usize::from(edge.to)),
            Part::Signed(" with delay ", i64::from(edge.delay)),
            Part::Told(" and distance ", u64::from(edge.distance)),
        ],
    )
}

/// Appends by how many cycles an operation is too early.
fn push_early(text: &mut Vec<u8>, cycles: u64) -> Result<(), OutOfMemory>
    ensures ok { OnOk result (text.new.items ≡ text.old.items ++ early_text cycles) }
{
    push_told(text, ": ", cycles)?;
    if cycles == 1 {
        return text.push_piece(" cycle too early");
    }
    text.push_piece(" cycles too early")
}

/// Appends that the time of an operation is out of range.
fn push_time(text: &mut Vec<u8>, draft: &Draft, op: usize) -> Result<(), OutOfMemory>
    ensures ok { OnOk result (text.new.items ≡ text.old.items ++ ((codes "the time of " ++ op_name draft.now op) ++ codes " is out of range")) }
{
    push_parts(
        text,
        draft,
        &[
            Part::Piece("the time of "),
            Part::Operation(op),
            Part::Piece(" is out of range"),
        ],
    )
}

/// Appends an operation, then what is wrong with it.
fn push_wrong(text: &mut Vec<u8>, draft: &Draft, op: usize, wrong: &str) -> Result<(), OutOfMemory>
    ensures ok { OnOk result (text.new.items ≡ text.old.items ++ (op_name draft.now op ++ wrong.now)) }
{
    push_parts(text, draft, &[Part::Operation(op), Part::Piece(wrong)])
}

/// Appends an edge that is not kept, and by how many cycles an operation is too early.
fn push_unkept(text: &mut Vec<u8>, draft: &Draft, edge: Edge, early: u64) -> Result<(), OutOfMemory>
    ensures ok { OnOk result (text.new.items ≡ text.old.items ++ (edge_text draft.now edge ++ early_text early)) }
{
    push_edge(text, draft, edge)?;
    push_early(text, early)
}

/// Appends what places break, where they are no schedule.
fn push_breach(text: &mut Vec<u8>, draft: &Draft, breach: Breach) -> Result<(), OutOfMemory>
    ensures ok { OnOk result (text.new.items ≡ text.old.items ++ breach_text draft.now breach) }
{
    match breach {
        Breach::Count => text.push_piece("not one time for each operation"),
        Breach::Time(op) => push_time(text, draft, op),
        Breach::Alternative(op) => push_wrong(text, draft, op, " has no such alternative"),
        Breach::Slot {
            earlier,
            later,
            unit,
            residue,
        } => push_holders(text, draft, earlier, later, unit, residue),
        Breach::Edge(edge, early) => push_unkept(text, draft, edge, early),
        Breach::Stage(op) => push_wrong(text, draft, op, " is in stage 64 or later"),
    }
}

/// Appends which values meet, or which one meets itself, where and when.
fn push_registers(
    text: &mut Vec<u8>,
    draft: &Draft,
    earlier: usize,
    later: usize,
    register: Register,
    cycle: u64,
) -> Result<(), OutOfMemory>
    ensures ok { OnOk result (text.new.items ≡ text.old.items ++ registers_text draft.now earlier later register cycle) }
{
    if earlier == later {
        push_parts(
            text,
            draft,
            &[
                Part::Value(later),
                Part::Piece(" meets a later instance of itself"),
                Part::Piece(" in "),
                Part::Register(register),
                Part::Told(" in cycle ", cycle),
            ],
        )
    } else {
        push_parts(
            text,
            draft,
            &[
                Part::Value(earlier),
                Part::Piece(" and "),
                Part::Value(later),
                Part::Piece(" are both"),
                Part::Piece(" in "),
                Part::Register(register),
                Part::Told(" in cycle ", cycle),
            ],
        )
    }
}

/// Appends that the interval is out of range.
fn push_interval(text: &mut Vec<u8>, ii: u64) -> Result<(), OutOfMemory>
    ensures ok { OnOk result (text.new.items ≡ text.old.items ++ (told (codes "interval ") ii ++ codes " is not 1 to 16384")) }
{
    push_told(text, "interval ", ii)?;
    text.push_piece(" is not 1 to 16384")
}

/// Appends that the number of a value is out of range.
fn push_wrong_number(text: &mut Vec<u8>, draft: &Draft, value: usize) -> Result<(), OutOfMemory>
    ensures ok { OnOk result (text.new.items ≡ text.old.items ++ ((codes "the number of " ++ value_name draft.now value) ++ codes " is out of range")) }
{
    push_parts(
        text,
        draft,
        &[
            Part::Piece("the number of "),
            Part::Value(value),
            Part::Piece(" is out of range"),
        ],
    )
}

/// Appends what is broken.
fn push_what(text: &mut Vec<u8>, draft: &Draft, ii: u64, broken: Broken) -> Result<(), OutOfMemory>
    ensures ok { OnOk result (text.new.items ≡ text.old.items ++ broken_text draft.now ii broken) }
{
    match broken {
        Broken::Interval => push_interval(text, ii),
        Broken::Numbers => text.push_piece("not one number for each value"),
        Broken::Number(value) => push_wrong_number(text, draft, value),
        Broken::Schedule(breach) => push_breach(text, draft, breach),
        Broken::Registers {
            file,
            earlier,
            later,
            register,
            cycle,
        } => {
            let number = register;
            push_registers(
                text,
                draft,
                earlier,
                later,
                Register { file, number },
                cycle,
            )
        }
    }
}

/// Appends what is missing.
fn push_lacking(text: &mut Vec<u8>, draft: &Draft, missing: Missing) -> Result<(), OutOfMemory>
    ensures ok { OnOk result (text.new.items ≡ text.old.items ++ missing_text draft.now missing) }
{
    match missing {
        Missing::Solution => text.push_piece("no solution"),
        Missing::Time(op) => {
            push_parts(
                text,
                draft,
                &[Part::Piece("no time of "), Part::Operation(op)],
            )
        }
        Missing::Number(value) => {
            push_parts(
                text,
                draft,
                &[Part::Piece("no number of "), Part::Value(value)],
            )
        }
    }
}

/// Appends the line of a problem whose solution is one: its interval in cycles, and its stages.
///
/// # Errors
/// [`OutOfMemory`] where memory ran out. The text is left with a part of the line.
pub fn push_ok(text: &mut Vec<u8>, name: &str, solution: &Solution) -> Result<(), OutOfMemory>
    ensures ok { OnOk result (text.new.items ≡ text.old.items ++ ok_line name.now solution.now) }
{
    push_parts(
        text,
        solution.problem().draft(),
        &[
            Part::Piece(name),
            Part::Told(" ok ii ", solution.ii()),
            Part::Told(" stages ", solution.stages()),
            Part::Piece("\n"),
        ],
    )
}

/// Appends the line of a problem for which lists are no solution at an interval, with what they break first. A part of the
/// problem that has no name is told by its number.
///
/// # Errors
/// [`OutOfMemory`] where memory ran out. The text is left with a part of the line.
pub fn push_broken(
    text: &mut Vec<u8>,
    name: &str,
    draft: &Draft,
    ii: u64,
    broken: Broken,
) -> Result<(), OutOfMemory>
    ensures ok { OnOk result (text.new.items ≡ text.old.items ++ broken_line name.now (broken_text draft.now ii broken)) }
{
    push_both(text, name, " broken: ")?;
    push_what(text, draft, ii, broken)?;
    text.push_piece("\n")
}

/// Appends the line of a problem whose solution is not there, or not whole, with what is missing. A part of the problem that
/// has no name is told by its number.
///
/// # Errors
/// [`OutOfMemory`] where memory ran out. The text is left with a part of the line.
pub fn push_missing(
    text: &mut Vec<u8>,
    name: &str,
    draft: &Draft,
    missing: Missing,
) -> Result<(), OutOfMemory>
    ensures ok { OnOk result (text.new.items ≡ text.old.items ++ broken_line name.now (missing_text draft.now missing)) }
{
    push_both(text, name, " broken: ")?;
    push_lacking(text, draft, missing)?;
    text.push_piece("\n")
}
