//! What makes a kernel well formed.

use crate::kernels::parts::{Kernel, Parts};
use crate::kernels::rules::first_failing;
use std::fmt;
use thiserror::Error;

/// A rule that a well-formed kernel keeps, in the order in which the rules are tested.
#[derive(Clone, Copy, Debug, PartialEq, Eq)]
pub enum Rule {
    /// An interval of 1 to 16,384 cycles; 1 to 64 stages; 1 to 256 registers; 1 to 128 operations; at
    /// most 32 arrays, 64 parameters, 256 preloads and 128 live values.
    Size,
    /// Each operation's row is below the interval.
    Row,
    /// Each operation's stage is below the number of stages.
    Stage,
    /// Each operation's latency is 1 to 64 cycles.
    Latency,
    /// Each register that an operation names is below the number of registers.
    Register,
    /// Each operation has the destination, the number of sources and the address that its opcode needs,
    /// and names parameters that are there.
    Shape,
    /// Each address is in an array that is there, and its offset with the stage added is -64 to 64.
    Place,
    /// The registers of preloads are below the number of registers and all different.
    Preload,
    /// The registers of live values are below the number of registers.
    Out,
}

impl fmt::Display for Rule {
    ghost use Rattle.std.specs.Prelude.{Some};
    ghost use Rattle.kernel.specs.Rules.{told_of};

    ghost output = { λ r. Some (told_of r) };

    fn fmt<W: fmt::Write>(&self, f: &mut fmt::Formatter<W>) -> fmt::Result {
        f.write_str(match self {
            Rule::Size => "size",
            Rule::Row => "row",
            Rule::Stage => "stage",
            Rule::Latency => "latency",
            Rule::Register => "register",
            Rule::Shape => "shape",
            Rule::Place => "place",
            Rule::Preload => "preload",
            Rule::Out => "out",
        })
    }
}

/// Parts that make no well-formed kernel, with the first rule that fails.
#[derive(Drop, Error)]
pub struct BadKernel {
    /// The first rule that fails.
    pub rule: Rule,
    /// The parts, unchanged.
    pub parts: Parts,
}

impl fmt::Debug for BadKernel {
    fn fmt<W: fmt::Write>(&self, f: &mut fmt::Formatter<W>) -> fmt::Result {
        f.debug_struct("BadKernel")
            .field("rule", &self.rule)
            .finish_non_exhaustive()
    }
}

/// Prints the rule, and nothing of the parts.
impl fmt::Display for BadKernel {
    ghost use Rattle.std.specs.Prelude.{◌++◌, codes, Some};
    ghost use Rattle.kernel.specs.Rules.{told_of};

    ghost output = { λ bad. Some (codes "not a well-formed kernel: " ++ told_of bad.rule) };

    fn fmt<W: fmt::Write>(&self, f: &mut fmt::Formatter<W>) -> fmt::Result {
        let rule = self.rule;
        write!(f, "not a well-formed kernel: {rule}")
    }
}

impl Kernel {
    ghost use Rattle.kernel.specs.Rules.{Checks};

    /// The kernel of these parts, where they keep every rule. Nothing is allocated. A refusal gives
    /// the parts back and names the first rule that fails.
    pub fn check(parts: Parts) -> Result<Kernel, BadKernel>
        ensures exact { Checks parts result }
    {
        match first_failing(&parts) {
            Some(rule) => Err(BadKernel { rule, parts }),
            None => Ok(Kernel::new(parts)),
        }
    }
}
