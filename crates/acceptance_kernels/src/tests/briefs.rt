//! Kernels in brief: what their parts are made of.

use kernel::{
    Address, ArrayNames, Kernel, Operation, Operations, Out, Outs, Params, Parts, Preload,
    Preloads, Source, Sources,
};
use loops::Param;
use machine::{Name, Opcode};
use smallvec::SmallVec;
use std::alloc::Global;
use std::process::Abort;

/// An operation: its row, stage, latency and alternative; what it does; the register that it writes; what it reads; and the array and the place in it of the cell that it touches.
pub(super) type BriefOperation = (
    (u16, u8, u8, u8),
    Opcode,
    Option<u16>,
    &'static [Source],
    Option<(u8, i16)>,
);

/// A kernel. Its parameters have the value 3.
#[derive(Clone, Copy)]
pub(super) struct Brief {
    pub(super) ii: u64,
    pub(super) stages: u64,
    pub(super) registers: u64,
    pub(super) params: &'static [&'static str],
    pub(super) arrays: &'static [&'static str],
    pub(super) operations: &'static [BriefOperation],
    pub(super) preloads: &'static [(u16, i64)],
    pub(super) outs: &'static [(&'static str, u16)],
}

/// A kernel without parameters, arrays, operations, initial values of registers and values that are live at the end.
pub(super) const BARE: Brief = Brief {
    ii: 1,
    stages: 1,
    registers: 1,
    params: &[],
    arrays: &[],
    operations: &[],
    preloads: &[],
    outs: &[],
};

/// The cell that an operation touches.
fn address(cell: Option<(u8, i16)>) -> Option<Address> {
    match cell {
        Some((array, offset)) => Some(Address { array, offset }),
        None => None,
    }
}

/// An operation that is given.
fn operation(rt: &impl Abort, alloc: Global, given: &BriefOperation) -> Operation {
    let sources = SmallVec::from_slice(alloc, given.3).expect(rt, "memory");
    Operation {
        row: given.0.0,
        stage: given.0.1,
        opcode: given.1,
        latency: given.0.2,
        alternative: given.0.3,
        destination: given.2,
        sources: Sources::new(sources),
        address: address(given.4),
    }
}

/// The operations that are given.
fn operations(rt: &impl Abort, alloc: Global, table: &[BriefOperation]) -> Operations {
    let mut list = Vec::new(alloc);
    for given in table {
        list.push(operation(rt, alloc, given)).expect(rt, "memory");
    }
    Operations::new(list)
}

/// A name.
fn name(rt: &impl Abort, text: &str) -> Name {
    Name::new(text).expect(rt, "a name")
}

/// The names of arrays.
fn arrays(rt: &impl Abort, alloc: Global, texts: &[&str]) -> ArrayNames {
    let mut names = Vec::new(alloc);
    for text in texts {
        names.push(name(rt, text)).expect(rt, "memory");
    }
    ArrayNames::new(names)
}

/// Parameters of the value 3.
fn params(rt: &impl Abort, alloc: Global, texts: &[&str]) -> Params {
    let mut list = Vec::new(alloc);
    for text in texts {
        let name = name(rt, text);
        list.push(Param { name, value: 3 }).expect(rt, "memory");
    }
    Params::new(list)
}

/// Values that are live at the end.
fn outs(rt: &impl Abort, alloc: Global, pairs: &[(&str, u16)]) -> Outs {
    let mut list = Vec::new(alloc);
    for (text, register) in pairs {
        let name = name(rt, text);
        let register = *register;
        list.push(Out { name, register }).expect(rt, "memory");
    }
    Outs::new(list)
}

/// Initial values of registers.
fn preloads(rt: &impl Abort, alloc: Global, pairs: &[(u16, i64)]) -> Preloads {
    let mut list = Vec::new(alloc);
    for (register, value) in pairs {
        let (register, value) = (*register, *value);
        list.push(Preload { register, value }).expect(rt, "memory");
    }
    Preloads::new(list)
}

/// The parts of a kernel.
pub(super) fn parts_of(rt: &impl Abort, alloc: Global, brief: &Brief) -> Parts {
    Parts {
        ii: brief.ii,
        stages: brief.stages,
        registers: brief.registers,
        params: params(rt, alloc, brief.params),
        arrays: arrays(rt, alloc, brief.arrays),
        operations: operations(rt, alloc, brief.operations),
        preloads: preloads(rt, alloc, brief.preloads),
        outs: outs(rt, alloc, brief.outs),
    }
}

/// A kernel that keeps the rules.
pub(super) fn kernel_of(rt: &impl Abort, alloc: Global, brief: &Brief) -> Kernel {
    Kernel::check(parts_of(rt, alloc, brief)).expect(rt, "a kernel")
}
