//! What refuses a file.

ghost use Rattle.std.specs.Prelude.{◌≡◌};
ghost use Rattle.file_faults.specs.declared.fault.FileFault.TheVariants.{Memory};
ghost use Rattle.file_faults.specs.Faults.{of_loops, of_machine, of_text};

use lower_bounds::TextFault;
use machine_data::{Name, Opcode, OutOfMemory};
use reader_faults::{LoopFault, LoopFaultKind, MachineFault};
use std::alloc::AllocFailed;
use std::fmt;
use thiserror::Error;

/// Why the texts of a machine and of loops have no listing.
#[derive(Debug, Drop, Error)]
pub enum FileFault {
    /// The machine's text is refused.
    Machine(MachineFault),
    /// The loops' text is refused.
    Loops(LoopFault),
    /// The machine has no table for the opcode of a statement: the name of the first loop that has such
    /// a statement, and the opcode of its first one.
    NoTable(Name, Opcode),
    /// Memory ran out. This says nothing of the texts.
    Memory,
}

impl fmt::Display for FileFault {
    ghost use Rattle.std.specs.Prelude.{Some};
    ghost use Rattle.file_faults.specs.Faults.{told_of};

    ghost output = { λ fault. Some (told_of fault) };

    fn fmt<W: fmt::Write>(&self, f: &mut fmt::Formatter<W>) -> fmt::Result {
        match self {
            FileFault::Machine(fault) => write!(f, "machine: {fault}"),
            FileFault::Loops(fault) => write!(f, "loops: {fault}"),
            FileFault::NoTable(name, opcode) => {
                let word = opcode.word();
                write!(f, "loops: loop {name}: no table for {word}")
            }
            FileFault::Memory => f.write_str("out of memory"),
        }
    }
}

impl From<MachineFault> for FileFault {
    ghost from_gives = { λ fault e. e ≡ of_machine fault };

    fn from(fault: MachineFault) -> FileFault {
        match fault {
            MachineFault::Memory => FileFault::Memory,
            fault => FileFault::Machine(fault),
        }
    }
}

impl From<LoopFault> for FileFault {
    ghost from_gives = { λ fault e. e ≡ of_loops fault };

    fn from(fault: LoopFault) -> FileFault {
        match fault.kind {
            LoopFaultKind::Memory => FileFault::Memory,
            _ => FileFault::Loops(fault),
        }
    }
}

impl From<TextFault> for FileFault {
    ghost from_gives = { λ fault e. e ≡ of_text fault };

    fn from(fault: TextFault) -> FileFault {
        match fault {
            TextFault::NoTable(name, opcode) => FileFault::NoTable(name, opcode),
            TextFault::Memory => FileFault::Memory,
        }
    }
}

impl From<OutOfMemory> for FileFault {
    ghost from_gives = { λ _ e. e ≡ Memory };

    fn from(_e: OutOfMemory) -> FileFault {
        FileFault::Memory
    }
}

impl<T: Drop> From<AllocFailed<T>> for FileFault {
    ghost from_gives = { λ _ e. e ≡ Memory };

    fn from(_e: AllocFailed<T>) -> FileFault {
        FileFault::Memory
    }
}
