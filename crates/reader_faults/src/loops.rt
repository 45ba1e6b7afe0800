//! Why a loop text is refused.

ghost use Rattle.std.specs.Prelude.{◌≡◌};
ghost use Rattle.reader_faults.specs.LoopFaults.{line_at};
ghost use Rattle.reader_faults.specs.declared.loops.LoopFaultKind.TheVariants.{Memory};

use machine_data::OutOfMemory;
use std::alloc::AllocFailed;
use std::fmt;
use thiserror::Error;

/// What is wrong with a line, in the order in which a line is tested.
#[derive(Clone, Copy, Debug, PartialEq, Eq, Error)]
pub enum LoopFaultKind {
    /// The line has none of the forms, or stands in a wrong place.
    Syntax,
    /// A name, a number or a count is outside its limits.
    Limit,
    /// A name, or an initial value, is there already.
    RepeatedName,
    /// A name is not declared, or not as what it is used.
    UnknownName,
    /// A value of this iteration is used before its statement.
    UseBeforeDefinition,
    /// A value of an earlier iteration has no initial value.
    MissingInit,
    /// The text ends inside a loop.
    NoEnd,
    /// Memory ran out. This says nothing of the text.
    Memory,
}

impl fmt::Display for LoopFaultKind {
    ghost use Rattle.std.specs.Prelude.{Some};
    ghost use Rattle.reader_faults.specs.LoopFaults.{kind_text};

    ghost output = { λ kind. Some (kind_text kind) };

    fn fmt<W: fmt::Write>(&self, f: &mut fmt::Formatter<W>) -> fmt::Result {
        f.write_str(match self {
            LoopFaultKind::Syntax => "syntax",
            LoopFaultKind::Limit => "limit",
            LoopFaultKind::RepeatedName => "repeated name",
            LoopFaultKind::UnknownName => "unknown name",
            LoopFaultKind::UseBeforeDefinition => "use before definition",
            LoopFaultKind::MissingInit => "missing init",
            LoopFaultKind::NoEnd => "no end",
            LoopFaultKind::Memory => "out of memory",
        })
    }
}

/// The first line at fault and its first fault.
#[derive(Clone, Copy, Debug, PartialEq, Eq)]
pub struct LoopFault {
    /// The line's number, from 1. It is 0 for a text above 1,048,576 bytes and for lack of memory.
    pub line: usize,
    pub kind: LoopFaultKind,
}

impl LoopFault {
    /// A fault of this line, or of line 0 for lack of memory.
    pub fn at(line: usize, kind: LoopFaultKind) -> LoopFault
        ensures kind { result.kind ≡ kind }
        ensures line { result.line ≡ line_at kind line }
    {
        match kind {
            LoopFaultKind::Memory => LoopFault { line: 0, kind },
            _ => LoopFault { line, kind },
        }
    }
}

/// Prints `line N: ` and the kind, or the kind alone for lack of memory.
impl fmt::Display for LoopFault {
    ghost use Rattle.std.specs.Prelude.{Some};
    ghost use Rattle.reader_faults.specs.LoopFaults.{loop_fault_text};

    ghost output = { λ fault. Some (loop_fault_text fault) };

    fn fmt<W: fmt::Write>(&self, f: &mut fmt::Formatter<W>) -> fmt::Result {
        let kind = self.kind;
        match kind {
            LoopFaultKind::Memory => write!(f, "{kind}"),
            _ => {
                let line = self.line;
                write!(f, "line {line}: {kind}")
            }
        }
    }
}

impl std::error::Error for LoopFault {}

impl From<OutOfMemory> for LoopFaultKind {
    ghost from_gives = { λ _ kind. kind ≡ Memory };

    fn from(_error: OutOfMemory) -> LoopFaultKind {
        LoopFaultKind::Memory
    }
}

impl<T: Drop> From<AllocFailed<T>> for LoopFaultKind {
    ghost from_gives = { λ _ kind. kind ≡ Memory };

    fn from(_error: AllocFailed<T>) -> LoopFaultKind {
        LoopFaultKind::Memory
    }
}

impl From<OutOfMemory> for LoopFault {
    ghost from_gives = { λ _ fault. fault ≡ record { line = 0; kind = Memory } };

    fn from(_error: OutOfMemory) -> LoopFault {
        LoopFault {
            line: 0,
            kind: LoopFaultKind::Memory,
        }
    }
}

impl<T: Drop> From<AllocFailed<T>> for LoopFault {
    ghost from_gives = { λ _ fault. fault ≡ record { line = 0; kind = Memory } };

    fn from(_error: AllocFailed<T>) -> LoopFault {
        LoopFault {
            line: 0,
            kind: LoopFaultKind::Memory,
        }
    }
}
