//! The variants of a machine.

ghost use Rattle.std.specs.Prelude.{◌≡◌, ◌≤◌, ◌<◌, ◌++◌, [], ◌∷◌, if◌then◌else◌, nat_lt, length, map, filter, IfOk, OnOk};
ghost use Rattle.std.specs.List.{All, list_any, range_with_len};
ghost use Rattle.machine_data.specs.Machines.{table_of};
ghost use Rattle.machine_data.specs.Opcodes.{all_opcodes};
ghost use Rattle.loop_data.specs.declared.language.statement.Statement as statement;
ghost use Rattle.graph.specs.Dependences.{latency_in};
ghost use Rattle.graph.specs.Units.{alternatives_in};
ghost use Rattle.machine_variants.specs.Variants.{IsVariantOf, concerns, is_opcode, is_other_number, numbers_to, takes, variants_of};
ghost use Rattle.machine_data.specs.declared.limits.TheConstants.{MAX_UNITS};

use crate::opcodes::{all_opcodes, alternatives_of, latency_of};
use loop_data::{Loop, Statement};
use machine_data::limits::MAX_REGISTERS;
use machine_data::{Machine, Opcode, OutOfMemory, Row};
use std::alloc::Global;

/// What is changed of a machine.
#[derive(Clone, Copy, PartialEq, Eq)]
pub enum Variant {
    /// The machine has the unit of this number twice.
    Doubled(u8),
    /// The latency of this opcode is one cycle less.
    Shortened(Opcode),
    /// The machine has this number of registers.
    Registers(u16),
}

/// Whether some row takes a unit.
pub(crate) fn takes(rows: &[Row], unit: u8) -> bool
    ensures { result ≡ takes unit rows.now }
{
    rows.iter().any(|row| row.unit == unit)
}

/// Whether some alternative of an opcode takes a unit.
fn takes_unit(machine: &Machine, opcode: Opcode, unit: u8) -> bool
    ensures { result ≡ list_any (takes unit) (alternatives_in (table_of machine.now opcode)) }
{
    alternatives_of(machine, opcode)
        .iter()
        .any(|alternative| takes(alternative.rows(), unit))
}

/// Whether two opcodes are one.
pub(crate) fn is_opcode(one: Opcode, other: Opcode) -> bool
    ensures { result ≡ is_opcode one other }
{
    one.number() == other.number()
}

/// Whether some statement may take a unit.
fn may_take(machine: &Machine, statements: &[Statement], unit: u8) -> bool
    ensures { result ≡ list_any (λ (s : statement.Statement). list_any (takes unit) (alternatives_in (table_of machine.now s.opcode))) statements.now }
{
    statements
        .iter()
        .any(|statement| takes_unit(machine, statement.opcode, unit))
}

/// Whether some statement has an opcode.
fn have_opcode(statements: &[Statement], opcode: Opcode) -> bool
    ensures { result ≡ list_any (λ (s : statement.Statement). is_opcode s.opcode opcode) statements.now }
{
    statements
        .iter()
        .any(|statement| is_opcode(statement.opcode, opcode))
}

/// Whether a variant concerns a loop: some alternative of its operations takes the unit, it has an operation of the opcode, or what is
/// changed is the number of registers.
pub fn concerns(machine: &Machine, innermost: &Loop, variant: Variant) -> bool
    ensures { result ≡ concerns machine.now innermost.now variant }
{
    let statements = innermost.statements();
    match variant {
        Variant::Doubled(unit) => may_take(machine, statements, unit),
        Variant::Shortened(opcode) => have_opcode(statements, opcode),
        Variant::Registers(_) => true,
    }
}

/// Whether a number of registers is one of those that are looked at beside the machine's own.
fn is_other_number(registers: u16, number: u16) -> bool
    requires own { registers ≤ MAX_REGISTERS }
    requires other { number ≤ 256 }
    ensures { result ≡ is_other_number registers number }
{
    number != registers
        && (number == registers / 2
            || number + 1 == registers
            || number == registers + 1
            || number == registers * 2
            || number == MAX_REGISTERS)
}

/// Appends a variant where this is so.
fn push_where(list: &mut Vec<Variant>, is_so: bool, variant: Variant) -> Result<(), OutOfMemory>
    ensures { OnOk result (list.new.items ≡ list.old.items ++ (if is_so then variant ∷ [] else [])) }
{
    if is_so {
        list.push(variant)?;
    }
    Ok(())
}

/// Appends each unit twice.
fn push_doubled(list: &mut Vec<Variant>, units: usize) -> Result<(), OutOfMemory>
    requires { units ≤ MAX_UNITS }
    ensures { OnOk result (list.new.items ≡ list.old.items ++ map Variant.Doubled (range_with_len 0 units)) }
{
    for unit in 0..units {
        list.push(Variant::Doubled(unit as u8))?;
    }
    Ok(())
}

/// Appends each latency above 1 one cycle less.
fn push_shortened(list: &mut Vec<Variant>, machine: &Machine) -> Result<(), OutOfMemory>
    ensures { OnOk result (list.new.items ≡ list.old.items ++ map Variant.Shortened (filter (λ opcode. nat_lt 1 (latency_in (table_of machine.now opcode))) all_opcodes)) }
{
    let opcodes = all_opcodes();
    for opcode in &opcodes {
        let is_above = 1 < latency_of(machine, *opcode);
        push_where(list, is_above, Variant::Shortened(*opcode))?;
    }
    Ok(())
}

/// Appends the other numbers of registers.
fn push_registers(list: &mut Vec<Variant>, registers: u16) -> Result<(), OutOfMemory>
    requires { registers ≤ MAX_REGISTERS }
    ensures { OnOk result (list.new.items ≡ list.old.items ++ map Variant.Registers (filter (is_other_number registers) (numbers_to 256))) }
{
    for above in 0..MAX_REGISTERS {
        let number = 1 + above;
        let is_other = is_other_number(registers, number);
        push_where(list, is_other, Variant::Registers(number))?;
    }
    Ok(())
}

/// The variants of a machine: each of its units twice; each latency above 1 one cycle less, by the numbers of the opcodes; and half as
/// many registers, one less, one more, twice as many and 256, each where it is another number from 1 to 256, in ascending order.
///
/// # Errors
/// Memory ran out.
pub fn variants_of(alloc: Global, machine: &Machine) -> Result<Vec<Variant>, OutOfMemory>
    ensures value { IfOk result (λ list. list.items ≡ variants_of machine.now) }
    ensures each { IfOk result (λ list. All (IsVariantOf machine.now) list.items) }
{
    let mut list = Vec::new(alloc);
    push_doubled(&mut list, machine.units().len())?;
    push_shortened(&mut list, machine)?;
    push_registers(&mut list, machine.registers())?;
    Ok(list)
}
