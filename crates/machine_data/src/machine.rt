//! A machine.

ghost use Rattle.std.specs.Prelude.{◌≡◌, ◌<◌, Option, option_copied};
ghost use Rattle.machine_data.specs.Machines.{MachineData, IsMachine, table_of};

use crate::name::Name;
use crate::opcode::Opcode;
use crate::opcode_table::OpcodeTable;
use std::marker::Model;

/// A VLIW machine: 1 to 64 functional units, 1 to 256 rotating registers and, for each opcode that
/// loops may use on it, how its operations are issued.
pub struct Machine {
    units: Vec<Name>,
    registers: u16,
    tables: Vec<Option<OpcodeTable>>,
}

// Written out, so that a crate above calls it. What is derived would be proved once more there, for each part.
impl Drop for Machine {
    fn drop(self) {
        let Machine {
            units: _,
            registers: _,
            tables: _,
        } = self;
    }
}

impl Model for Machine {
    ghost use Rattle.machine_data.specs.Machines.{MachineData, IsMachine};

    ghost Value = { MachineData };

    ghost view = { λ m. record { units = m.units.items; registers = m.registers; tables = m.tables.items } };

    ghost invariant = { λ m. IsMachine (record { units = m.units.items; registers = m.registers; tables = m.tables.items }) };
}

impl Machine {
    /// The machine with these units, this number of registers and, by the opcodes' numbers, these
    /// tables.
    pub fn new(units: Vec<Name>, registers: u16, tables: Vec<Option<OpcodeTable>>) -> Machine
        requires { IsMachine (record { units = units.items; registers = registers; tables = tables.items }) }
        ensures { result ≡ record { units = units.items; registers = registers; tables = tables.items } }
    {
        Machine {
            units,
            registers,
            tables,
        }
    }

    /// The names of the units, by their numbers.
    pub fn units(&self) -> &[Name]
        ensures value { result.now ≡ self.now.units }
        ensures well_formed { IsMachine self.now }
    {
        self.units.as_slice()
    }

    /// The number of rotating registers.
    pub fn registers(&self) -> u16
        ensures value { result ≡ self.now.registers }
        ensures well_formed { IsMachine self.now }
    {
        self.registers
    }

    /// How operations of this opcode are issued, where loops may use it on this machine.
    pub fn table(&self, opcode: Opcode) -> Option<&OpcodeTable>
        ensures value { option_copied result ≡ table_of self.now opcode }
        ensures well_formed { IsMachine self.now }
    {
        self.tables[opcode.number()].as_ref()
    }
}
