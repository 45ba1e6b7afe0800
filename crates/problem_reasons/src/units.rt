//! The lines of the units that a problem uses.

ghost use Rattle.std.specs.Prelude.{◌≡◌, ◌<◌, ◌++◌, ℕ, ◌==◌, Bool, List, codes, length, OnOk};
ghost use Rattle.std.specs.List.{flat_map, range_with_len};
ghost use Rattle.resource_bound.specs.UnitLines.{full_text};
ghost use Rattle.writing.specs.Words.{told};
ghost use Rattle.solution_text.specs.Names.{unit_name};
ghost use Rattle.problem_reasons.specs.Units.{AreUnitLines, line_with, unit_line, user_text, users_text};

use machine_data::OutOfMemory;
use machine_data::limits::MAX_STATEMENTS;
use outcome_text::{rows_at, rows_with, use_of};
use problems::{Draft, Problem};
use resource_bound::unit_choices_of;
use solution_text::{push_op_name, push_unit_name};
use std::alloc::Global;
use writing::{Text, push_told};

/// Appends an operation with how often it uses a unit, if it does.
fn push_user(text: &mut Vec<u8>, draft: &Draft, op: usize, uses: u64) -> Result<(), OutOfMemory>
    ensures ok { OnOk result (text.new.items ≡ text.old.items ++ user_text draft.now op uses) }
{
    if uses == 0 {
        return Ok(());
    }
    text.push_piece(" ")?;
    push_op_name(text, draft, op)?;
    if uses > 1 {
        push_told(text, "*", uses)?;
    }
    Ok(())
}

/// Appends the operations that use a unit.
fn push_users(
    text: &mut Vec<u8>,
    problem: &Problem,
    choices: &[u8],
    unit: usize,
) -> Result<(), OutOfMemory>
    requires { length choices.now ≡ length problem.now.scheduling.operations }
    ensures ok { OnOk result (text.new.items ≡ text.old.items ++ users_text problem.now choices.now unit) }
{
    let operations = problem.scheduling().alternatives();
    for op in 0..operations.len() {
        let uses = rows_with(rows_at(operations, choices, op), unit);
        push_user(text, problem.draft(), op, uses)?;
    }
    Ok(())
}

/// Appends what a unit is called and its uses, with a mark where they are the bound.
fn push_uses(
    text: &mut Vec<u8>,
    draft: &Draft,
    unit: usize,
    uses: u64,
    full: bool,
) -> Result<(), OutOfMemory>
    ensures ok { OnOk result (text.new.items ≡ text.old.items ++ ((((codes "unit " ++ unit_name draft.now unit) ++ told (codes " uses ") uses) ++ full_text full) ++ codes ":")) }
{
    text.push_piece("unit ")?;
    push_unit_name(text, draft, unit)?;
    push_told(text, " uses ", uses)?;
    if full {
        text.push_piece(" full")?;
    }
    text.push_piece(":")
}

/// Appends the line of a unit with `uses` uses, if it has any.
fn push_unit_line(
    text: &mut Vec<u8>,
    problem: &Problem,
    choices: &[u8],
    unit: usize,
    uses: u64,
) -> Result<(), OutOfMemory>
    requires { length choices.now ≡ length problem.now.scheduling.operations }
    ensures ok { OnOk result (text.new.items ≡ text.old.items ++ line_with problem.now choices.now unit uses) }
{
    if uses == 0 {
        return Ok(());
    }
    let full = uses == problem.scheduling().resources();
    push_uses(text, problem.draft(), unit, uses, full)?;
    push_users(text, problem, choices, unit)?;
    text.push_piece("\n")
}

/// Appends the lines of the units that a problem uses by these choices.
fn push_unit_lines(text: &mut Vec<u8>, problem: &Problem, choices: &[u8]) -> Result<(), OutOfMemory>
    requires { length choices.now ≡ length problem.now.scheduling.operations }
    ensures ok { OnOk result (text.new.items ≡ text.old.items ++ flat_map (unit_line problem.now choices.now) (range_with_len 0 problem.now.draft.units)) }
{
    let operations = problem.scheduling().alternatives();
    for unit in 0..problem.draft().units {
        let uses = use_of(operations, choices, unit);
        push_unit_line(text, problem, choices, unit, uses)?;
    }
    Ok(())
}

/// Appends the lines of the units that a problem uses by the choices of the resource-constrained bound.
pub(crate) fn push_units(
    alloc: Global,
    text: &mut Vec<u8>,
    problem: &Problem,
) -> Result<(), OutOfMemory>
    ensures ok { OnOk result ((units : List ℕ) × AreUnitLines problem.now units × (text.new.items ≡ text.old.items ++ units)) }
{
    let scheduling = problem.scheduling();
    prove!(scheduling.operations() <= MAX_STATEMENTS);
    let choices = unit_choices_of(alloc, scheduling.alternatives())?;
    push_unit_lines(text, problem, choices.as_slice())
}
