//! Reading machine texts.

ghost use Rattle.std.specs.Prelude.{◌≡◌, map, option_map};
ghost use Rattle.std.specs.List.{list_any};
ghost use Rattle.machine_data.specs.Opcodes.{same_word};
ghost use Rattle.toml.specs.View.{view, table_view};
ghost use Rattle.reader_faults.specs.MachineFaults.{MachineAnswer};
ghost use Rattle.machine.specs.inner.Reads.{ReadsPart, faults_of_list, list_in, faults_of_table};
ghost use Rattle.machine.specs.MachineText.{within, unknown_keys, faults_of_number, number_in, keys_in, tree_faults, tree_machine, machine_of};

use machine_data::Machine;
use machine_data::limits::{MAX_REGISTERS, MAX_TEXT};
use path::Path;
use reader_faults::{Key, MachineFault};
use std::alloc::Global;
use tables::read_tables;
use toml::{Table, Value};
use units::read_units;

mod path;
mod rows;
mod tables;
mod units;

pub use rows::{row_words, small_offset};
pub use units::is_unit_name;

/// Reads a machine text, which is TOML: the machine that it describes, or the first of the checks
/// that it fails, in the order of the text's parts `units`, `registers` and `ops`. Keys that mean
/// nothing come before all else at their level.
pub fn read_machine(alloc: Global, text: &[u8]) -> Result<Machine, MachineFault>
    ensures exact { MachineAnswer result (machine_of text.now) }
{
    if text.len() > MAX_TEXT {
        return Err(MachineFault::limit(alloc, "text"));
    }
    let Ok(text) = str::from_utf8(text) else {
        return Err(MachineFault::NotUtf8);
    };
    match toml::table_from_str(alloc, text) {
        Ok(tree) => read_tree(alloc, &tree),
        Err(error) => {
            if error.is_memory() {
                Err(MachineFault::Memory)
            } else {
                Err(MachineFault::NotToml)
            }
        }
    }
}

/// The machine that the tree of a text describes.
fn read_tree(alloc: Global, tree: &Table) -> Result<Machine, MachineFault>
    ensures { ReadsPart (tree_faults (table_view tree.now)) (λ machine. machine ≡ tree_machine (table_view tree.now)) result }
{
    check_keys(alloc, &Path::top(""), &["ops", "registers", "units"], tree)?;
    let units = read_units(alloc, tree.get("units"))?;
    let path = Path::top("registers");
    let registers = read_number(
        alloc,
        &path,
        "registers",
        MAX_REGISTERS,
        tree.get("registers"),
    )?;
    let tables = read_tables(alloc, units.as_slice(), tree.get("ops"))?;
    Ok(Machine::new(units, registers, tables))
}

/// Refuses the first key of a table that is none of the known ones.
pub(crate) fn check_keys(
    alloc: Global,
    path: &Path,
    known: &[&str],
    table: &Table,
) -> Result<(), MachineFault>
    ensures { ReadsPart (unknown_keys path.now (map (λ k. k.now) known.now) (table_view table.now)) (λ _. Unit {0}) result }
{
    for (key, _) in table {
        if !is_known(key.as_str(), known) {
            return Err(MachineFault::UnknownKey(path.to_key(alloc, key.as_str())?));
        }
    }
    Ok(())
}

/// Whether a word is among these.
fn is_known(word: &str, known: &[&str]) -> bool
    ensures { result ≡ list_any (λ k. same_word word.now k.now) known.now }
{
    known.iter().any(|other| word == *other)
}

/// The integer of a key, from 1 to `high`.
pub(crate) fn read_number(
    alloc: Global,
    path: &Path,
    limit: &str,
    high: u16,
    value: Option<&Value>,
) -> Result<u16, MachineFault>
    ensures { let found = option_map (λ v. view v.now) value.entry in ReadsPart (faults_of_number path.now limit.now 1 high found) (λ number. number ≡ number_in found) result }
{
    let Some(value) = value else {
        return Err(path.missing(alloc));
    };
    let Some(number) = value.as_integer() else {
        return Err(path.wrong_type(alloc));
    };
    // What is no `u16` is outside the limits, and so is 0.
    let number = u16::try_from(number).unwrap_or(0);
    if !is_within(usize::from(number), usize::from(high)) {
        return Err(MachineFault::limit(alloc, limit));
    }
    Ok(number)
}

/// The values of a list of at least one and at most `most`.
pub(crate) fn read_list<'a>(
    alloc: Global,
    path: &Path,
    limit: &str,
    most: usize,
    value: Option<&'a Value>,
) -> Result<&'a [Value], MachineFault>
    ensures { let found = option_map (λ v. view v.now) value.entry in ReadsPart (faults_of_list path.now limit.now most found) (λ values. map view values.now ≡ list_in found) result }
{
    let Some(value) = value else {
        return Err(path.missing(alloc));
    };
    let Some(values) = value.as_array() else {
        return Err(path.wrong_type(alloc));
    };
    if !is_within(values.len(), most) {
        return Err(MachineFault::limit(alloc, limit));
    }
    Ok(values.as_slice())
}

/// The table of a key.
pub(crate) fn read_table<'a>(
    alloc: Global,
    path: &Path,
    value: Option<&'a Value>,
) -> Result<&'a Table, MachineFault>
    ensures { let found = option_map (λ v. view v.now) value.entry in ReadsPart (faults_of_table path.now found) (λ table. table_view table.now ≡ keys_in found) result }
{
    match value {
        None => Err(path.missing(alloc)),
        Some(value) => match value.as_table() {
            None => Err(path.wrong_type(alloc)),
            Some(table) => Ok(table),
        },
    }
}

/// Whether a number is at least 1 and at most `high`.
pub(crate) fn is_within(number: usize, high: usize) -> bool
    ensures { result ≡ within 1 high number }
{
    1 <= number && number <= high
}
