//! Machines with one more unit.

ghost use Rattle.std.specs.Prelude.{◌≡◌, ℕ, ◌≤◌, ◌<◌, ◌++◌, nat_lt, true, false, codes, decimal, length, map, filter, count_by, IfOk, OnOk, option_map, MatchOption};
ghost use Rattle.std.specs.List.{All, list_any};
ghost use Rattle.machine_data.specs.declared.alternative.Row.{Row};
ghost use Rattle.machine_data.specs.Machines.{table_of};
ghost use Rattle.machine_data.specs.Opcodes.{all_opcodes};
ghost use Rattle.graph.specs.Units.{alternatives_in};
ghost use Rattle.machine_variants.specs.Variants.{doubled_table, moved, moved_row, numbered, passes_limit, takes, varied, with_copies};
ghost use Rattle.machine_variants.specs.declared.variant.Variant.{Variant};

use crate::opcodes::{all_opcodes, alternatives_of};
use crate::variant::takes;
use itoa::Buffer;
use machine_data::limits::{MAX_ALTERNATIVES, MAX_UNITS};
use machine_data::{
    Alternative, Alternatives, Machine, Name, OPCODES, Opcode, OpcodeTable, OutOfMemory, Row,
};
use smallvec::SmallVec;
use std::alloc::Global;

/// How many alternatives take a unit.
fn count_takers(alternatives: &[Alternative], unit: u8) -> usize
    ensures { result ≡ count_by (takes unit) alternatives.now }
{
    alternatives
        .iter()
        .filter(|alternative| takes(alternative.rows(), unit))
        .count()
}

/// How many alternatives there are where a unit is there twice.
fn count_with_copies(alternatives: &[Alternative], unit: u8) -> usize
    requires { length alternatives.now ≤ 16 }
    ensures { (new : ℕ) → result ≡ length (with_copies unit new alternatives.now) }
{
    let takers = count_takers(alternatives, unit);
    prove!(takers <= alternatives.len());
    alternatives.len() + takers
}

/// Whether an opcode has more than 8 alternatives where a unit is there twice.
fn has_too_many(machine: &Machine, opcode: Opcode, unit: u8) -> bool
    ensures { result ≡ nat_lt 8 (length (with_copies unit (length machine.now.units) (alternatives_in (table_of machine.now opcode)))) }
{
    MAX_ALTERNATIVES < count_with_copies(alternatives_of(machine, opcode), unit)
}

/// Whether some opcode has.
fn are_too_many(machine: &Machine, unit: u8) -> bool
    ensures { result ≡ list_any (λ opcode. nat_lt 8 (length (with_copies unit (length machine.now.units) (alternatives_in (table_of machine.now opcode))))) all_opcodes }
{
    let opcodes = all_opcodes();
    opcodes
        .iter()
        .any(|opcode| has_too_many(machine, *opcode, unit))
}

/// A row with a new unit in the place of a unit.
fn moved_row(row: Row, unit: u8, new: u8) -> Row
    ensures { result ≡ moved_row unit new row }
{
    Row {
        unit: if row.unit == unit { new } else { row.unit },
        offset: row.offset,
    }
}

/// Such rows.
fn moved_rows(
    alloc: Global,
    rows: &[Row],
    unit: u8,
    new: u8,
) -> Result<SmallVec<Row, 4>, OutOfMemory>
    ensures { IfOk result (λ moved_rows. moved_rows.items ≡ moved unit new rows.now) }
{
    let mut list = SmallVec::new(alloc);
    for row in rows {
        list.push(moved_row(*row, unit, new))?;
    }
    Ok(list)
}

/// An alternative with a new unit, which it does not take, in the place of a unit.
fn moved(
    alloc: Global,
    alternative: &Alternative,
    unit: u8,
    new: u8,
) -> Result<Alternative, OutOfMemory>
    requires few { new < 64 }
    requires others { All (λ (row : Row). row.unit < new) alternative.now }
    ensures { IfOk result (λ rows. rows ≡ moved unit new alternative.now) }
{
    let rows = moved_rows(alloc, alternative.rows(), unit, new)?;
    Ok(Alternative::new(rows))
}

/// Appends copies of alternatives.
fn push_copies(
    alloc: Global,
    list: &mut Vec<Alternative>,
    alternatives: &[Alternative],
) -> Result<(), OutOfMemory>
    ensures { OnOk result (list.new.items ≡ list.old.items ++ alternatives.now) }
{
    for alternative in alternatives {
        list.push(alternative.copied(alloc)?)?;
    }
    Ok(())
}

/// Appends a copy of each alternative that takes a unit, with a new one in its place.
fn push_moved(
    alloc: Global,
    list: &mut Vec<Alternative>,
    alternatives: &[Alternative],
    unit: u8,
    new: u8,
) -> Result<(), OutOfMemory>
    requires few { new < 64 }
    requires others { All (λ rows. All (λ (row : Row). row.unit < new) rows) alternatives.now }
    ensures { OnOk result (list.new.items ≡ list.old.items ++ map (moved unit new) (filter (takes unit) alternatives.now)) }
{
    for alternative in alternatives {
        if takes(alternative.rows(), unit) {
            list.push(moved(alloc, alternative, unit, new)?)?;
        }
    }
    Ok(())
}

/// The alternatives with such copies after them.
fn with_copies(
    alloc: Global,
    alternatives: &Alternatives,
    unit: u8,
    new: u8,
) -> Result<Alternatives, OutOfMemory>
    requires few { new < 64 }
    requires others { All (λ rows. All (λ (row : Row). row.unit < new) rows) alternatives.now }
    requires count { length (with_copies unit new alternatives.now) ≤ 16 }
    ensures { IfOk result (λ copies. copies ≡ with_copies unit new alternatives.now) }
{
    let mut list = Vec::with_capacity(alloc, MAX_ALTERNATIVES)?;
    push_copies(alloc, &mut list, alternatives.as_slice())?;
    push_moved(alloc, &mut list, alternatives.as_slice(), unit, new)?;
    Alternatives::shared(list)
}

/// The table of an opcode where a unit is there twice.
fn doubled_table(
    alloc: Global,
    machine: &Machine,
    opcode: Opcode,
    unit: u8,
) -> Result<Option<OpcodeTable>, OutOfMemory>
    requires few { length machine.now.units < 64 }
    requires count { length (with_copies unit (length machine.now.units) (alternatives_in (table_of machine.now opcode))) ≤ 8 }
    ensures { IfOk result (λ table. table ≡ option_map (doubled_table unit (length machine.now.units)) (table_of machine.now opcode)) }
{
    let new = machine.units().len() as u8;
    match machine.table(opcode) {
        Some(table) => {
            let alternatives = with_copies(alloc, table.alternatives(), unit, new)?;
            Ok(Some(OpcodeTable::new(table.latency(), alternatives)))
        }
        None => Ok(None),
    }
}

/// The tables of all opcodes where a unit is there twice.
fn doubled_tables(
    alloc: Global,
    machine: &Machine,
    unit: u8,
) -> Result<Vec<Option<OpcodeTable>>, OutOfMemory>
    requires { passes_limit machine.now (Variant.Doubled unit) ≡ false }
    ensures { IfOk result (λ tables. tables.items ≡ map (λ opcode. option_map (doubled_table unit (length machine.now.units)) (table_of machine.now opcode)) all_opcodes) }
{
    let mut tables = Vec::with_capacity(alloc, OPCODES)?;
    let opcodes = all_opcodes();
    for opcode in &opcodes {
        tables.push(doubled_table(alloc, machine, *opcode, unit)?)?;
    }
    Ok(tables)
}

/// The name `u` with a number of two digits at most after it.
fn numbered_name(alloc: Global, number: usize) -> Result<Name, OutOfMemory>
    requires { number < 100 }
    ensures { IfOk result (λ name. name ≡ codes "u" ++ decimal number) }
{
    let mut digits = Buffer::new();
    let mut text = String::new(alloc);
    text.push_str("u")?;
    text.push_str(digits.format(number))?;
    match Name::new(text.as_str()) {
        Some(name) => Ok(name),
        None => unreachable!(),
    }
}

/// `count` names, all different.
fn numbered(alloc: Global, count: usize) -> Result<Vec<Name>, OutOfMemory>
    requires { count ≤ 100 }
    ensures { IfOk result (λ names. names.items ≡ numbered count) }
{
    let mut names = Vec::with_capacity(alloc, count)?;
    for number in 0..count {
        names.push(numbered_name(alloc, number)?)?;
    }
    Ok(names)
}

/// The machine with a unit twice, where that passes no limit.
fn doubled_within(alloc: Global, machine: &Machine, unit: u8) -> Result<Machine, OutOfMemory>
    requires { passes_limit machine.now (Variant.Doubled unit) ≡ false }
    ensures { IfOk result (λ other. other ≡ varied (Variant.Doubled unit) machine.now) }
{
    let units = numbered(alloc, machine.units().len() + 1)?;
    let tables = doubled_tables(alloc, machine, unit)?;
    Ok(Machine::new(units, machine.registers(), tables))
}

/// The machine with the unit of a number, from 0, twice: the new one stands after all others, and each alternative that takes the
/// unit has a copy after all others of its opcode that takes the new one in its place. `None` where that passes the limit of 64
/// units, or that of 8 alternatives of an opcode.
///
/// # Errors
/// Memory ran out.
pub fn doubled(alloc: Global, machine: &Machine, unit: u8) -> Result<Option<Machine>, OutOfMemory>
    ensures { IfOk result (λ found. MatchOption found (passes_limit machine.now (Variant.Doubled unit) ≡ true) (λ other. (passes_limit machine.now (Variant.Doubled unit) ≡ false) × (other ≡ varied (Variant.Doubled unit) machine.now))) }
{
    if MAX_UNITS <= machine.units().len() || are_too_many(machine, unit) {
        return Ok(None);
    }
    Ok(Some(doubled_within(alloc, machine, unit)?))
}
