//! What a small program makes of the texts of a machine and of loops.

ghost use Rattle.std.specs.Prelude.{◌≡◌, Bool, List, Result};
ghost use Rattle.reader_faults.specs.declared.machine.MachineFault.{MachineFault};
ghost use Rattle.reader_faults.specs.declared.loops.LoopFault.{LoopFault};
ghost use Rattle.machine.specs.Machines.{MachineData};
ghost use Rattle.machine.specs.MachineText.{machine_of};
ghost use Rattle.loop_data.specs.Loops.{LoopData};
ghost use Rattle.loop_reader.specs.Meaning.{loops_in};
ghost use Rattle.file_faults.specs.declared.fault.FileFault.{FileFault};
ghost use Rattle.written.specs.Written.{Written};

use file_faults::FileFault;
use std::alloc::Global;
use written::Printout;

/// What is wanted of the texts of a machine and of loops, or of the loops' text alone.
pub trait Makes: Drop {
    /// Whether it needs the text of a machine.
    ghost on_machine: { Self → Bool };

    /// Whether this is an outcome for what both texts mean: what is written, or why they are refused.
    ghost tells: { Self → Result MachineData MachineFault → Result (List LoopData) LoopFault → Result Written FileFault → Type 0 };

    /// Whether it needs the text of a machine.
    fn is_on_machine(&self) -> bool
        ensures { result ≡ on_machine self.now };

    /// What is written for these texts. Where no machine is needed, the first text may be any; [`crate::answer`] gives an empty one.
    ///
    /// # Errors
    /// The fault of a text, the first loop with an opcode that the machine has no table for, or lack of memory.
    fn printout(&self, alloc: Global, machine: &[u8], loops: &[u8]) -> Result<Printout, FileFault>
        ensures { tells self.now (machine_of machine.now) (loops_in loops.now) result };
}
