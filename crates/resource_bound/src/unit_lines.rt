//! The lines of the units that a loop uses.

ghost use Rattle.std.specs.Prelude.{◌≡◌, ◌<◌, ◌≤◌, ◌++◌, [], length, OnOk};
ghost use Rattle.std.specs.List.{All, slice_index_or};
ghost use Rattle.unit_bound.specs.Units.{chosen_rows, use_of};
ghost use Rattle.graph.specs.Units.{operations_of};
ghost use Rattle.unit_bound.specs.Uses.{Tallies};
ghost use Rattle.resource_bound.specs.Choices.{rows_at};
ghost use Rattle.resource_bound.specs.UnitLines.{line_with, unit_lines_of, user_text, users_text, uses_text};
ghost use Rattle.machine_data.specs.declared.limits.TheConstants.{MAX_UNITS};

use crate::tally::Tally;
use graph_text::push_name;
use loop_data::Loop;
use machine_data::{Alternative, Machine, OutOfMemory, Row};
use writing::{Text, push_both, push_told};

/// The rows of the alternative of this place, none where there is no such alternative.
pub fn rows_by(alternatives: &[Alternative], choice: u8) -> &[Row]
    ensures value { result.now ≡ slice_index_or alternatives.now choice [] }
    ensures units { All (λ r. r.unit < MAX_UNITS) result.now }
    ensures few { length result.now ≤ 16 }
{
    match alternatives.get(usize::from(choice)) {
        Some(alternative) => alternative.rows(),
        None => &[],
    }
}

/// The alternatives of the operation of this number, none where the machine has no table for it.
fn alternatives_at<'a>(machine: &'a Machine, innermost: &Loop, number: usize) -> &'a [Alternative]
    requires { number < length innermost.now.statements }
    ensures { result.now ≡ slice_index_or (operations_of machine.now innermost.now) number [] }
{
    match machine.table(innermost.statements()[number].opcode) {
        Some(table) => table.alternatives().as_slice(),
        None => &[],
    }
}

/// The rows of the alternative that the operation of this number takes, none where there is no such alternative.
fn rows_at<'a>(machine: &'a Machine, innermost: &Loop, choices: &[u8], number: usize) -> &'a [Row]
    requires there { number < length innermost.now.statements }
    requires chosen { number < length choices.now }
    ensures value { result.now ≡ rows_at (operations_of machine.now innermost.now) choices.now number }
    ensures units { All (λ r. r.unit < MAX_UNITS) result.now }
    ensures few { length result.now ≤ 16 }
{
    rows_by(alternatives_at(machine, innermost, number), choices[number])
}

/// The uses of all units.
fn uses_of(machine: &Machine, innermost: &Loop, choices: &[u8]) -> Tally
    requires { length choices.now ≡ length innermost.now.statements }
    ensures { Tallies (chosen_rows (operations_of machine.now innermost.now) choices.now) result.counts result.greatest }
{
    let mut uses = Tally::none();
    for number in 0..innermost.statements().len() {
        uses = uses.with(rows_at(machine, innermost, choices, number));
    }
    uses
}

/// How many of the rows use a unit.
fn use_of(rows: &[Row], unit: u8) -> usize
    ensures { result ≡ use_of rows.now unit }
{
    rows.iter().filter(|row| row.unit == unit).count()
}

/// Appends an operation with how often it uses a unit, if it does.
fn push_user(
    text: &mut Vec<u8>,
    innermost: &Loop,
    number: u8,
    uses: usize,
) -> Result<(), OutOfMemory>
    requires { number < length innermost.now.statements }
    ensures ok { OnOk result (text.new.items ≡ text.old.items ++ user_text innermost.now number uses) }
{
    if uses == 0 {
        return Ok(());
    }
    text.push_piece(" ")?;
    push_name(text, innermost, number)?;
    if uses > 1 {
        push_told(text, "*", uses as u64)?;
    }
    Ok(())
}

/// Appends the operations that use a unit.
fn push_users(
    text: &mut Vec<u8>,
    machine: &Machine,
    innermost: &Loop,
    choices: &[u8],
    unit: u8,
) -> Result<(), OutOfMemory>
    requires { length choices.now ≡ length innermost.now.statements }
    ensures ok { OnOk result (text.new.items ≡ text.old.items ++ users_text machine.now innermost.now choices.now unit) }
{
    for number in 0..innermost.statements().len() {
        let uses = use_of(rows_at(machine, innermost, choices, number), unit);
        push_user(text, innermost, number as u8, uses)?;
    }
    Ok(())
}

/// Appends the name of a unit and its uses, with a mark where it is the fullest.
fn push_uses(
    text: &mut Vec<u8>,
    machine: &Machine,
    unit: u8,
    uses: u16,
    full: bool,
) -> Result<(), OutOfMemory>
    requires { unit < length machine.now.units }
    ensures ok { OnOk result (text.new.items ≡ text.old.items ++ uses_text machine.now unit uses full) }
{
    push_both(text, "unit ", machine.units()[usize::from(unit)].as_str())?;
    push_told(text, " uses ", u64::from(uses))?;
    if full {
        text.push_piece(" full")?;
    }
    Ok(())
}

/// Appends the line of a unit with `uses` uses, if it has any; no unit has more than `greatest`.
fn push_unit_line(
    text: &mut Vec<u8>,
    machine: &Machine,
    innermost: &Loop,
    choices: &[u8],
    unit: u8,
    uses: u16,
    greatest: u16,
) -> Result<(), OutOfMemory>
    requires there { unit < length machine.now.units }
    requires each { length choices.now ≡ length innermost.now.statements }
    ensures ok { OnOk result (text.new.items ≡ text.old.items ++ line_with machine.now innermost.now choices.now unit uses greatest) }
{
    if uses == 0 {
        return Ok(());
    }
    push_uses(text, machine, unit, uses, uses == greatest)?;
    text.push_piece(":")?;
    push_users(text, machine, innermost, choices, unit)?;
    text.push_piece("\n")
}

/// Appends a line for each unit of a machine that a loop uses by these choices, in the machine's order:
/// `unit U uses N: NAME NAME*2 ..`. N is how many rows of the chosen alternatives are of the unit. The operations
/// that use it follow in text order, each by its value's name or, for a store, its place, with `*K` after one
/// that uses it K times, K above 1. A unit whose uses no unit has more than is marked, as in
/// `unit U uses N full: ..`; by the choices of [`unit_choices`](crate::unit_choices) that N is the
/// resource-constrained lower bound.
///
/// There is a choice for each operation; one that is no alternative of its operation uses no unit.
///
/// # Errors
/// Memory ran out.
pub fn push_unit_lines(
    text: &mut Vec<u8>,
    machine: &Machine,
    innermost: &Loop,
    choices: &[u8],
) -> Result<(), OutOfMemory>
    requires { length choices.now ≡ length innermost.now.statements }
    ensures ok { OnOk result (text.new.items ≡ text.old.items ++ unit_lines_of machine.now innermost.now choices.now) }
{
    let tally = uses_of(machine, innermost, choices);
    for unit in 0..machine.units().len() {
        let uses = tally.counts[unit];
        push_unit_line(
            text,
            machine,
            innermost,
            choices,
            unit as u8,
            uses,
            tally.greatest,
        )?;
    }
    Ok(())
}
