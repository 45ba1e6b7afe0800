//! Machines with a shorter latency.

ghost use Rattle.std.specs.Prelude.{◌≡◌, ◌<◌, true, map, IfOk};
ghost use Rattle.machine_data.specs.Machines.{table_of};
ghost use Rattle.machine_data.specs.Opcodes.{all_opcodes};
ghost use Rattle.graph.specs.Dependences.{latency_in};
ghost use Rattle.machine_variants.specs.declared.variant.Variant.{Variant};
ghost use Rattle.machine_variants.specs.Variants.{is_opcode, shortened_where, varied};

use crate::opcodes::all_opcodes;
use crate::variant::is_opcode;
use machine_data::{Machine, Name, OPCODES, Opcode, OpcodeTable, OutOfMemory};
use std::alloc::Global;

/// The table of an opcode, with a latency that is one cycle less where it is the one to be shortened.
fn shortened_table(
    alloc: Global,
    machine: &Machine,
    opcode: Opcode,
    is_shortened: bool,
) -> Result<Option<OpcodeTable>, OutOfMemory>
    requires { is_shortened ≡ true → 1 < latency_in (table_of machine.now opcode) }
    ensures { IfOk result (λ table. table ≡ shortened_where is_shortened (table_of machine.now opcode)) }
{
    match machine.table(opcode) {
        Some(table) => {
            let less = if is_shortened { 1 } else { 0 };
            let alternatives = table.alternatives().copied(alloc)?;
            Ok(Some(OpcodeTable::new(table.latency() - less, alternatives)))
        }
        None => Ok(None),
    }
}

/// The tables of all opcodes, with the latency of one a cycle less.
fn shortened_tables(
    alloc: Global,
    machine: &Machine,
    opcode: Opcode,
) -> Result<Vec<Option<OpcodeTable>>, OutOfMemory>
    requires { 1 < latency_in (table_of machine.now opcode) }
    ensures { IfOk result (λ tables. tables.items ≡ map (λ other. shortened_where (is_opcode other opcode) (table_of machine.now other)) all_opcodes) }
{
    let mut tables = Vec::with_capacity(alloc, OPCODES)?;
    let opcodes = all_opcodes();
    for other in &opcodes {
        let is_shortened = is_opcode(*other, opcode);
        tables.push(shortened_table(alloc, machine, *other, is_shortened)?)?;
    }
    Ok(tables)
}

/// Copies of names.
fn copied_names(alloc: Global, names: &[Name]) -> Result<Vec<Name>, OutOfMemory>
    ensures { IfOk result (λ copies. copies.items ≡ names.now) }
{
    let mut copies = Vec::with_capacity(alloc, names.len())?;
    for name in names {
        copies.push(name.copied())?;
    }
    Ok(copies)
}

/// The machine with the latency of an opcode one cycle less, where it is above 1.
///
/// # Errors
/// Memory ran out.
pub fn shortened(alloc: Global, machine: &Machine, opcode: Opcode) -> Result<Machine, OutOfMemory>
    requires { 1 < latency_in (table_of machine.now opcode) }
    ensures { IfOk result (λ other. other ≡ varied (Variant.Shortened opcode) machine.now) }
{
    let units = copied_names(alloc, machine.units())?;
    let tables = shortened_tables(alloc, machine, opcode)?;
    Ok(Machine::new(units, machine.registers(), tables))
}
