//! Why loops have no bounds on a machine, and so no text.

ghost use Rattle.std.specs.Prelude.{◌≡◌};
ghost use Rattle.lower_bounds.specs.declared.fault.TextFault.TheVariants.{Memory};
ghost use Rattle.lower_bounds.specs.Faults.{fault_of};

use graph::GraphFault;
use loop_data::Loop;
use machine_data::{Name, Opcode, OutOfMemory};
use std::fmt;
use thiserror::Error;

/// Why loops have no bounds on a machine, and so no text.
#[derive(Debug, Drop, Error)]
pub enum TextFault {
    /// The machine has no table for an opcode of the loop with this name: of the first such loop, and of
    /// its first such statement.
    NoTable(Name, Opcode),
    /// Memory ran out. This says nothing of the loops.
    Memory,
}

/// The fault of a loop.
pub(crate) fn fault_of(fault: GraphFault, innermost: &Loop) -> TextFault
    ensures { result ≡ fault_of innermost.now.name fault }
{
    match fault {
        GraphFault::NoTable(opcode) => TextFault::NoTable(innermost.name().copied(), opcode),
        GraphFault::Memory => TextFault::Memory,
    }
}

impl fmt::Display for TextFault {
    ghost use Rattle.std.specs.Prelude.{Some};
    ghost use Rattle.lower_bounds.specs.Faults.{fault_text};

    ghost output = { λ fault. Some (fault_text fault) };

    fn fmt<W: fmt::Write>(&self, f: &mut fmt::Formatter<W>) -> fmt::Result {
        match self {
            TextFault::NoTable(name, opcode) => {
                let word = opcode.word();
                write!(f, "loop {name}: no table for {word}")
            }
            TextFault::Memory => f.write_str("out of memory"),
        }
    }
}

impl From<OutOfMemory> for TextFault {
    ghost from_gives = { λ _ e. e ≡ Memory };

    fn from(_e: OutOfMemory) -> TextFault {
        TextFault::Memory
    }
}
