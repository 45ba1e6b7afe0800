//! All opcodes, and what a machine says of one.

ghost use Rattle.std.specs.Prelude.{◌≡◌, ◌≤◌, length};
ghost use Rattle.machine_data.specs.Machines.{table_of};
ghost use Rattle.machine_data.specs.Opcodes.{all_opcodes};
ghost use Rattle.graph.specs.Dependences.{latency_in};
ghost use Rattle.graph.specs.Units.{alternatives_in};

use machine_data::{Alternative, Machine, OPCODES, Opcode};

/// All opcodes, by their numbers.
pub(crate) fn all_opcodes() -> [Opcode; OPCODES]
    ensures { result ≡ all_opcodes }
{
    [
        Opcode::Load,
        Opcode::Store,
        Opcode::Add,
        Opcode::Sub,
        Opcode::Mul,
        Opcode::And,
        Opcode::Or,
        Opcode::Xor,
        Opcode::Min,
        Opcode::Max,
        Opcode::Lt,
        Opcode::Sel,
        Opcode::Mov,
    ]
}

/// The latency of an opcode, in cycles, 1 to 64; 0 where the machine has no table for it.
pub fn latency_of(machine: &Machine, opcode: Opcode) -> u8
    ensures { result ≡ latency_in (table_of machine.now opcode) }
{
    match machine.table(opcode) {
        Some(table) => table.latency(),
        None => 0,
    }
}

/// The alternatives of an opcode; none where it has no table.
pub(crate) fn alternatives_of(machine: &Machine, opcode: Opcode) -> &[Alternative]
    ensures value { result.now ≡ alternatives_in (table_of machine.now opcode) }
    ensures few { length result.now ≤ 16 }
{
    match machine.table(opcode) {
        Some(table) => table.alternatives().as_slice(),
        None => &[],
    }
}
