//! Reading the reservation tables of a machine text.

ghost use Rattle.std.specs.Prelude.{◌≡◌, ◌<◌, ◌≤◌, ◌++◌, ◌&&◌, nat_lt, true, position, length, map, option_map, IfSome, SomeIff};
ghost use Rattle.std.specs.List.{flat_map};
ghost use Rattle.std.specs.Str.{all_ascii_digits};
ghost use Rattle.std.specs.Str.Parse.{digits_value};
ghost use Rattle.machine_data.specs.Opcodes.{same_word};
ghost use Rattle.toml.specs.View.{view};
ghost use Rattle.machine.specs.inner.Reads.{ReadsPart};
ghost use Rattle.machine.specs.MachineText.{words_in, faults_in_turn, row_faults, row_in, alternative_faults, rows_of, faults_of_alternatives, alternatives_of};

use crate::read::path::Path;
use crate::read::read_list;
use crate::read::units::is_unit_name;
use machine_data::limits::{MAX_ALTERNATIVES, MAX_OFFSET, MAX_ROWS};
use machine_data::{Alternative, Alternatives, Name, Row};
use reader_faults::{Key, MachineFault};
use smallvec::SmallVec;
use std::alloc::Global;
use toml::Value;

/// The alternatives of an opcode, at this path.
pub(crate) fn read_alternatives(
    alloc: Global,
    path: &Path,
    units: &[Name],
    value: Option<&Value>,
) -> Result<Alternatives, MachineFault>
    requires { length units.now ≤ 64 }
    ensures { let found = option_map (λ v. view v.now) value.entry in ReadsPart (faults_of_alternatives path.now units.now found) (λ alternatives. alternatives ≡ alternatives_of units.now found) result }
{
    let values = read_list(alloc, path, "alternatives", MAX_ALTERNATIVES, value)?;
    let mut alternatives = Vec::with_capacity(alloc, values.len())?;
    add_alternatives(alloc, path, units, &mut alternatives, values)?;
    Ok(Alternatives::shared(alternatives)?)
}

/// Appends alternatives of the alternatives at this path.
fn add_alternatives(
    alloc: Global,
    path: &Path,
    units: &[Name],
    alternatives: &mut Vec<Alternative>,
    values: &[Value],
) -> Result<(), MachineFault>
    requires { length units.now ≤ 64 }
    ensures { ReadsPart (flat_map (alternative_faults path.now units.now) (map view values.now)) (λ _. alternatives.new.items ≡ alternatives.old.items ++ map (rows_of units.now) (map view values.now)) result }
{
    for value in values {
        alternatives.push(read_alternative(alloc, path, units, value)?)?;
    }
    Ok(())
}

/// An alternative, of the alternatives at this path.
fn read_alternative(
    alloc: Global,
    path: &Path,
    units: &[Name],
    value: &Value,
) -> Result<Alternative, MachineFault>
    requires { length units.now ≤ 64 }
    ensures { ReadsPart (alternative_faults path.now units.now (view value.now)) (λ rows. rows ≡ rows_of units.now (view value.now)) result }
{
    let values = read_list(alloc, path, "rows", MAX_ROWS, Some(value))?;
    let mut rows = SmallVec::new(alloc);
    add_rows(alloc, path, units, &mut rows, values)?;
    Ok(Alternative::new(rows))
}

/// Reads rows after others of their alternative, and appends them.
fn add_rows(
    alloc: Global,
    path: &Path,
    units: &[Name],
    rows: &mut SmallVec<Row, 4>,
    values: &[Value],
) -> Result<(), MachineFault>
    requires { length units.now ≤ 64 }
    ensures { ReadsPart (faults_in_turn (row_faults path.now units.now) (row_in units.now) rows.old.items (map view values.now)) (λ _. rows.new.items ≡ rows.old.items ++ map (row_in units.now) (map view values.now)) result }
{
    for value in values {
        let row = read_row(alloc, path, units, rows.as_slice(), value)?;
        rows.push(row)?;
    }
    Ok(())
}

/// A row after others of its alternative.
fn read_row(
    alloc: Global,
    path: &Path,
    units: &[Name],
    before: &[Row],
    value: &Value,
) -> Result<Row, MachineFault>
    requires { length units.now ≤ 64 }
    ensures { ReadsPart (row_faults path.now units.now before.now (view value.now)) (λ row. row ≡ row_in units.now (view value.now)) result }
{
    let Some((unit, digits)) = row_words(value) else {
        return Err(path.wrong_type(alloc));
    };
    let Some(offset) = small_offset(digits) else {
        return Err(MachineFault::limit(alloc, "offset"));
    };
    let Some(number) = unit_number(unit, units) else {
        return Err(MachineFault::UnknownUnit(Key::of(alloc, unit)?));
    };
    let row = Row {
        unit: number as u8,
        offset,
    };
    if before.contains(&row) {
        return Err(MachineFault::RepeatedRow(path.to_key(alloc, "")?));
    }
    Ok(row)
}

/// The number of the unit that has this name.
fn unit_number(name: &str, units: &[Name]) -> Option<usize>
    ensures { result ≡ position (same_word name.now) units.now }
{
    units.iter().position(|unit| name == unit.as_str())
}

/// The name of the unit and the digits of the offset in a row's text `UNIT@NUM`: what stands before the first `@` has the form
/// of a unit's name, and after it stand digits alone, one at least. None where the value is no such text. The offset may
/// be of any size: [`small_offset`] tells it.
pub fn row_words(value: &Value) -> Option<(&str, &str)>
    ensures digits { IfSome result (λ p. (0 < length p.1.now) × (all_ascii_digits p.1.now ≡ true)) }
    ensures value { option_map (λ p. (p.0.now, digits_value 10 p.1.now)) result ≡ words_in (view value.now) }
{
    let (unit, digits) = value.as_str()?.split_once('@')?;
    if is_unit_name(unit) && is_number(digits) {
        Some((unit, digits))
    } else {
        None
    }
}

/// Whether a text is a number: one or more digits.
fn is_number(text: &str) -> bool
    ensures { result ≡ (nat_lt 0 (length text.now) && all_ascii_digits text.now) }
{
    !text.is_empty() && text.bytes().all(|c| c.is_ascii_digit())
}

/// The offset of a row, 0 to 63 cycles, that these digits write: one digit at least, as [`row_words`] tells them. None where
/// it is above 63.
pub fn small_offset(digits: &str) -> Option<u8>
    requires some { 0 < length digits.now }
    requires digits { all_ascii_digits digits.now ≡ true }
    ensures { SomeIff result (digits_value 10 digits.now ≤ 63) (digits_value 10 digits.now) }
{
    let Ok(offset) = digits.parse::<u8>() else {
        return None;
    };
    if offset <= MAX_OFFSET {
        Some(offset)
    } else {
        None
    }
}
