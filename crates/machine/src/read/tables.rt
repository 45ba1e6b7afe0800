//! Reading the tables of opcodes of a machine text.

ghost use Rattle.std.specs.Prelude.{◌≡◌, ◌≤◌, Some, None, is_some, length, option_map, replicate, IfOk};
ghost use Rattle.std.specs.List.{flat_map};
ghost use Rattle.toml.specs.Data.{table};
ghost use Rattle.toml.specs.View.{view, table_view};
ghost use Rattle.reader_faults.specs.declared.machine.MachineFault.TheVariants.{UnknownOpcode};
ghost use Rattle.machine.specs.inner.Reads.{ReadsPart};
ghost use Rattle.machine_data.specs.Opcodes.{word_of, opcode_named};
ghost use Rattle.machine.specs.MachineText.{unless, table_faults, operation_of, entries_of, entry_faults, faults_of_tables, tables_of};

use crate::read::path::Path;
use crate::read::rows::read_alternatives;
use crate::read::{check_keys, read_number, read_table};
use machine_data::limits::MAX_LATENCY;
use machine_data::{Name, OPCODES, Opcode, OpcodeTable, OutOfMemory};
use reader_faults::{Key, MachineFault};
use std::alloc::Global;
use toml::{Table, Value};

/// For each opcode, by its number, its table, where it has one.
pub(crate) fn read_tables(
    alloc: Global,
    units: &[Name],
    value: Option<&Value>,
) -> Result<Vec<Option<OpcodeTable>>, MachineFault>
    requires { length units.now ≤ 64 }
    ensures { let found = option_map (λ v. view v.now) value.entry in ReadsPart (faults_of_tables units.now found) (λ tables. tables.items ≡ tables_of units.now found) result }
{
    let ops = read_table(alloc, &Path::top("ops"), value)?;
    let mut tables = no_tables(alloc)?;
    fill_tables(alloc, units, &mut tables, ops)?;
    Ok(tables)
}

/// Fills in the tables of opcodes.
fn fill_tables(
    alloc: Global,
    units: &[Name],
    tables: &mut Vec<Option<OpcodeTable>>,
    ops: &Table,
) -> Result<(), MachineFault>
    requires units { length units.now ≤ 64 }
    requires none { tables.old.items ≡ replicate 13 None }
    ensures { ReadsPart (flat_map (entry_faults units.now) (entries_of (table_view ops.now))) (λ _. tables.new.items ≡ tables_of units.now (Some (table (table_view ops.now)))) result }
{
    for (key, value) in ops.iter() {
        let opcode = opcode_of(alloc, key.as_str())?;
        tables[opcode.number()] = Some(read_operation(alloc, units, opcode, value)?);
    }
    Ok(())
}

/// The opcode of a table by its key.
fn opcode_of(alloc: Global, key: &str) -> Result<Opcode, MachineFault>
    ensures { ReadsPart (unless (is_some (opcode_named key.now)) (UnknownOpcode key.now)) (λ opcode. opcode_named key.now ≡ Some opcode) result }
{
    match Opcode::named(key.as_bytes()) {
        Some(opcode) => Ok(opcode),
        None => Err(MachineFault::UnknownOpcode(Key::of(alloc, key)?)),
    }
}

/// No table for any opcode.
fn no_tables(alloc: Global) -> Result<Vec<Option<OpcodeTable>>, OutOfMemory>
    ensures { IfOk result (λ tables. tables.items ≡ replicate 13 None) }
{
    let mut tables = Vec::with_capacity(alloc, OPCODES)?;
    while tables.len() < OPCODES {
        tables.push(None)?;
    }
    Ok(tables)
}

/// The table of an opcode.
fn read_operation(
    alloc: Global,
    units: &[Name],
    opcode: Opcode,
    value: &Value,
) -> Result<OpcodeTable, MachineFault>
    requires { length units.now ≤ 64 }
    ensures { ReadsPart (table_faults units.now (word_of opcode) (view value.now)) (λ table. table ≡ operation_of units.now (view value.now)) result }
{
    let word = opcode.word();
    let keys = read_table(alloc, &Path::table(word), Some(value))?;
    check_keys(alloc, &Path::inside(word, ""), &["alts", "latency"], keys)?;
    let path = Path::inside(word, "latency");
    let latency = read_number(
        alloc,
        &path,
        "latency",
        MAX_LATENCY as u16,
        keys.get("latency"),
    )?;
    let alternatives = read_alternatives(
        alloc,
        &Path::inside(word, "alts"),
        units,
        keys.get("alts"),
    )?;
    Ok(OpcodeTable::new(latency as u8, alternatives))
}
