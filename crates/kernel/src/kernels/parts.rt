//! Kernels.

ghost use Rattle.std.specs.Prelude.{◌≡◌};
ghost use Rattle.kernel.specs.Check.{IsWellFormed};

use crate::kernels::lists::{ArrayNames, Operations, Outs, Params, Preloads};
use machine_data::Name;
use std::marker::Model;

/// The initial value of a register.
#[derive(Clone, Copy, PartialEq, Eq)]
pub struct Preload {
    /// The physical register, which is also the register's name in turn 0.
    pub register: u16,
    /// What the register holds before the first turn.
    pub value: i64,
}

/// A value that is live at the end.
#[derive(Drop)]
pub struct Out {
    /// The value's name.
    pub name: Name,
    /// The register's name in turn `N + stages - 2` of a run of `N` iterations, which is the last one.
    pub register: u16,
}

/// The parts of a kernel, well formed or not.
#[derive(Drop)]
pub struct Parts {
    /// The initiation interval: how many rows a turn has, in cycles.
    pub ii: u64,
    /// How many stages there are.
    pub stages: u64,
    /// How many rotating registers there are.
    pub registers: u64,
    /// The parameters, which have one value in every turn.
    pub params: Params,
    /// The names of the arrays, by their numbers.
    pub arrays: ArrayNames,
    /// The operations, by their numbers: of one row, those of smaller numbers are issued first.
    pub operations: Operations,
    /// The registers that are set before the first turn; all others open at 0.
    pub preloads: Preloads,
    /// The values that are live at the end, in the order of a memory's.
    pub outs: Outs,
}

/// A well-formed kernel. It need not come from a loop, and may let two values share a register.
/// Contracts see its parts.
pub struct Kernel {
    parts: Parts,
}

// Written out, so that a crate above calls it. What is derived would be proved once more there, for each part.
impl Drop for Kernel {
    fn drop(self) {
        let Kernel { parts: _ } = self;
    }
}

impl Model for Kernel {
    ghost use Rattle.kernel.specs.declared.kernels.parts.Parts.{Parts};

    ghost Value = { Parts };

    ghost use Rattle.kernel.specs.Check.{IsWellFormed};

    ghost view = { λ k. k.parts };

    ghost invariant = { λ k. IsWellFormed k.parts };
}

impl Kernel {
    /// The kernel of parts that are well formed, for a caller that knows it of them. Nothing is tested:
    /// for parts of which it is not known, there is [`Kernel::check`].
    pub fn new(parts: Parts) -> Kernel
        requires well_formed { IsWellFormed parts }
        ensures value { result ≡ parts }
    {
        Kernel { parts }
    }

    /// The kernel's parts.
    pub fn parts(&self) -> &Parts
        ensures value { result.now ≡ self.now }
        ensures well_formed { IsWellFormed self.now }
    {
        &self.parts
    }

    /// The kernel's parts, to be used further.
    pub fn into_parts(self) -> Parts
        ensures value { result ≡ self }
        ensures well_formed { IsWellFormed self }
    {
        let Kernel { parts } = self;
        parts
    }
}
