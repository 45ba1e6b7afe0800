//! Reading the functional units of a machine text.

ghost use Rattle.std.specs.Prelude.{◌≡◌, ◌++◌, map, option_map};
ghost use Rattle.std.specs.List.{list_any, list_all};
ghost use Rattle.machine_data.specs.Opcodes.{same_word};
ghost use Rattle.toml.specs.View.{view};
ghost use Rattle.machine.specs.inner.Reads.{ReadsPart};
ghost use Rattle.machine_data.specs.Machines.{is_unit_word, is_unit_byte};
ghost use Rattle.machine.specs.MachineText.{is_unit_name, unit_faults, text_of, faults_in_turn, faults_of_units, names_of};

use crate::read::path::Path;
use crate::read::{is_within, read_list};
use machine_data::Name;
use machine_data::limits::{MAX_NAME, MAX_UNITS};
use reader_faults::{Key, MachineFault};
use std::alloc::Global;
use toml::Value;

/// The names of the units.
pub(crate) fn read_units(alloc: Global, value: Option<&Value>) -> Result<Vec<Name>, MachineFault>
    ensures { let found = option_map (λ v. view v.now) value.entry in ReadsPart (faults_of_units found) (λ names. names.items ≡ names_of found) result }
{
    let units = read_list(alloc, &Path::top("units"), "units", MAX_UNITS, value)?;
    let mut names = Vec::with_capacity(alloc, units.len())?;
    add_units(alloc, &mut names, units)?;
    Ok(names)
}

/// Reads units after those with these names, and appends their names.
fn add_units(alloc: Global, names: &mut Vec<Name>, units: &[Value]) -> Result<(), MachineFault>
    ensures { ReadsPart (faults_in_turn unit_faults text_of names.old.items (map view units.now)) (λ _. names.new.items ≡ names.old.items ++ map text_of (map view units.now)) result }
{
    for unit in units {
        let name = read_unit(alloc, names.as_slice(), unit)?;
        names.push(name)?;
    }
    Ok(())
}

/// The name of a unit after others.
fn read_unit(alloc: Global, before: &[Name], value: &Value) -> Result<Name, MachineFault>
    ensures { ReadsPart (unit_faults before.now (view value.now)) (λ name. name ≡ text_of (view value.now)) result }
{
    let Some(text) = value.as_str() else {
        return Err(Path::top("units").wrong_type(alloc));
    };
    if !is_unit_name(text) {
        return Err(MachineFault::limit(alloc, "unit name"));
    }
    if is_among(text, before) {
        return Err(MachineFault::RepeatedUnit(Key::of(alloc, text)?));
    }
    Ok(Name::new(text).unwrap())
}

/// Whether a name is among these.
fn is_among(name: &str, names: &[Name]) -> bool
    ensures { result ≡ list_any (λ other. same_word other name.now) names.now }
{
    names.iter().any(|other| other.as_str() == name)
}

/// Whether a text has the form of a unit's name: a lower-case letter, then lower-case letters,
/// digits and low lines, 1 to 16 bytes in all.
pub fn is_unit_name(text: &str) -> bool
    ensures { result ≡ is_unit_name text.now }
{
    is_unit_word(text.as_bytes()) && is_within(text.len(), MAX_NAME)
}

/// The same at any length.
fn is_unit_word(text: &[u8]) -> bool
    ensures { result ≡ is_unit_word text.now }
{
    match text.split_first() {
        Some((first, rest)) => first.is_ascii_lowercase() && are_unit_bytes(rest),
        None => false,
    }
}

/// Whether all of these bytes may stand after the first of a unit's name.
fn are_unit_bytes(text: &[u8]) -> bool
    ensures { result ≡ list_all is_unit_byte text.now }
{
    text.iter().all(|c| is_unit_byte(*c))
}

/// Whether a byte may stand after the first of a unit's name.
fn is_unit_byte(c: u8) -> bool
    ensures { result ≡ is_unit_byte c }
{
    c.is_ascii_lowercase() || c.is_ascii_digit() || c == b'_'
}
