//! Operations, each with its alternatives: those of a loop on a machine.

ghost use Rattle.std.specs.Prelude.{◌≡◌, None};
ghost use Rattle.graph.specs.Units.{first_without_table, operations_of};

use loop_data::Loop;
use machine_data::{Alternative, Machine};
use unit_bound::Offers;

/// The operations of a loop, with the alternatives that a machine offers for them.
#[derive(Clone, Copy)]
pub struct OfLoop<'a> {
    /// The machine.
    pub machine: &'a Machine,
    /// The loop.
    pub innermost: &'a Loop,
}

impl<'a> Offers for OfLoop<'a> {
    ghost operations = { λ o. operations_of o.machine.now o.innermost.now };

    ghost sound = { λ o. first_without_table o.machine.now o.innermost.now ≡ None };

    fn count(&self) -> usize {
        self.innermost.statements().len()
    }

    fn alternatives(&self, operation: usize) -> &[Alternative] {
        let opcode = self.innermost.statements()[operation].opcode;
        match self.machine.table(opcode) {
            Some(table) => table.alternatives().as_slice(),
            None => &[],
        }
    }
}
