//! Why a loop has no bounds on a machine.

ghost use Rattle.std.specs.Prelude.{◌≡◌};
ghost use Rattle.graph.specs.declared.fault.GraphFault.TheVariants.{Memory};

use machine_data::{Opcode, OutOfMemory};
use std::alloc::AllocFailed;
use std::fmt;
use thiserror::Error;

/// Why a loop has no bounds on a machine.
#[derive(Debug, Drop, Error)]
pub enum GraphFault {
    /// The machine has no table for the opcode of a statement: of the first such statement.
    NoTable(Opcode),
    /// Memory ran out. This says nothing of the loop.
    Memory,
}

impl fmt::Display for GraphFault {
    ghost use Rattle.std.specs.Prelude.{Some};
    ghost use Rattle.graph.specs.Faults.{graph_fault_text};

    ghost output = { λ fault. Some (graph_fault_text fault) };

    fn fmt<W: fmt::Write>(&self, f: &mut fmt::Formatter<W>) -> fmt::Result {
        match self {
            GraphFault::NoTable(opcode) => {
                let word = opcode.word();
                write!(f, "no table for {word}")
            }
            GraphFault::Memory => f.write_str("out of memory"),
        }
    }
}

impl From<OutOfMemory> for GraphFault {
    ghost from_gives = { λ _ e. e ≡ Memory };

    fn from(_e: OutOfMemory) -> GraphFault {
        GraphFault::Memory
    }
}

impl<T: Drop> From<AllocFailed<T>> for GraphFault {
    ghost from_gives = { λ _ e. e ≡ Memory };

    fn from(_e: AllocFailed<T>) -> GraphFault {
        GraphFault::Memory
    }
}
