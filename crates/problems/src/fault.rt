//! What is wrong with a draft.

ghost use Rattle.std.specs.Prelude.{◌≡◌};
ghost use Rattle.problems.specs.declared.fault.Refusal.TheVariants.{Memory};

use machine_data::OutOfMemory;
use std::fmt;
use thiserror::Error;

/// A part of a scheduling problem.
#[derive(Clone, Copy, Debug, PartialEq, Eq)]
pub enum Part {
    /// The units.
    Units,
    /// The register files.
    Files,
    /// The kinds of operations.
    Kinds,
    /// The operations.
    Operations,
    /// The values.
    Values,
    /// The reads of values.
    Reads,
    /// The orders of operations.
    Orders,
}

/// The first thing that is wrong with a draft. All numbers count from 0.
#[derive(Clone, Copy, Debug, PartialEq, Eq)]
pub enum Fault {
    /// The size of a part is out of range: it is this number.
    Count(Part, usize),
    /// A part has names, but not one for each.
    NameCount(Part),
    /// The name with this number is that of one before it.
    Repeated(Part, usize),
    /// Of a rotating file: its registers are not 1 to 256.
    Registers(usize),
    /// Of a kind: the latency is not 1 to 64 cycles.
    Latency(usize),
    /// Of a kind: the alternatives are not 1 to 16.
    Alternatives(usize),
    /// Of a kind and its alternative: the rows are not 1 to 16.
    Rows(usize, usize),
    /// Of a kind, its alternative and the alternative's row: there is no such unit.
    NoUnit(usize, usize, usize),
    /// Of a kind, its alternative and the alternative's row: the offset is above 63 cycles.
    Offset(usize, usize, usize),
    /// Of a kind, its alternative and the alternative's row: the row is the same as one before it.
    RepeatedRow(usize, usize, usize),
    /// Of an operation: there is no such kind.
    NoKind(usize),
    /// Of a value: there is no such operation to make it.
    NoMaker(usize),
    /// Of a value: it lands more than 64 cycles after the issue.
    Lands(usize),
    /// Of a value: there is no such register file.
    NoFile(usize),
    /// Of a read: there is no such value.
    NoValue(usize),
    /// Of a read: there is no such operation to read it.
    NoReader(usize),
    /// Of a read: it is of more than 16 iterations ago.
    Distance(usize),
    /// Of a read: it comes more than 63 cycles after the issue.
    ReadOffset(usize),
    /// Of a read: it is of the same iteration, and the maker does not come before the reader.
    ReadBackward(usize),
    /// Of an order: there is no such operation to come first.
    NoFrom(usize),
    /// Of an order: there is no such operation to wait.
    NoTo(usize),
    /// Of an order: the delay is not -64 to 64 cycles.
    Delay(usize),
    /// Of an order: the distance is above 255 iterations.
    OrderDistance(usize),
    /// Of an order: it is within an iteration, and the first operation does not come before the second.
    OrderBackward(usize),
}

/// Why a draft gives no problem.
#[derive(Debug, Drop, Error)]
pub enum Refusal {
    /// Something is wrong with the draft: the first thing that is.
    Fault(Fault),
    /// Memory ran out. This says nothing of the draft.
    Memory(OutOfMemory),
}

impl fmt::Display for Refusal {
    ghost use Rattle.std.specs.Prelude.{Some};
    ghost use Rattle.problems.specs.Refusals.{told_of};

    ghost output = { λ refusal. Some (told_of refusal) };

    fn fmt<W: fmt::Write>(&self, f: &mut fmt::Formatter<W>) -> fmt::Result {
        f.write_str(match self {
            Refusal::Fault(_) => "the problem is at fault",
            Refusal::Memory(_) => "out of memory",
        })
    }
}

impl From<OutOfMemory> for Refusal {
    ghost from_gives = { λ cause e. e ≡ Memory cause };

    fn from(cause: OutOfMemory) -> Refusal {
        Refusal::Memory(cause)
    }
}
