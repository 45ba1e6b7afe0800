//! The operations of a kernel.

use crate::kernels::lists::Sources;
use machine_data::Opcode;

/// What an operation reads.
#[derive(Clone, Copy, PartialEq, Eq)]
pub enum Source {
    /// The register of this name, which rotates.
    Register(u16),
    /// The parameter of this number, from 0.
    Parameter(u8),
    /// This number.
    Constant(i64),
}

impl Default for Source {
    ghost use Rattle.std.specs.Prelude.{pos, ◌≡◌};
    ghost use Rattle.kernel.specs.declared.kernels.operation.Source.TheVariants.{Constant};

    ghost is_default = { λ s. s ≡ Constant (pos 0) };

    fn default() -> Source {
        Source::Constant(0)
    }
}

/// A cell that moves with the turns: in turn `k` it is the array's cell `k + offset`.
#[derive(Clone, Copy, PartialEq, Eq)]
pub struct Address {
    /// The array's number, from 0.
    pub array: u8,
    /// Cells; with the stage added, -64 to 64.
    pub offset: i16,
}

/// One operation of a kernel. It is issued in its row of each turn in which its stage is active.
#[derive(Drop)]
pub struct Operation {
    /// The row of a turn, from 0, in cycles.
    pub row: u16,
    /// The stage, from 0, in turns.
    pub stage: u8,
    /// What the operation does.
    pub opcode: Opcode,
    /// After how many cycles the write lands, 1 to 64.
    pub latency: u8,
    /// The number of the alternative by which the operation is issued, from 0.
    pub alternative: u8,
    /// The name of the register that is written; a `store` has none.
    pub destination: Option<u16>,
    /// What is read, in order; the second source of a `store` is its guard.
    pub sources: Sources,
    /// The cell that a `load` reads and a `store` writes.
    pub address: Option<Address>,
}
