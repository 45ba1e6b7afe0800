//! How operations of one opcode are issued.

ghost use Rattle.std.specs.Prelude.{◌≡◌, ◌<◌, ◌≤◌};
ghost use Rattle.machine_data.specs.declared.limits.TheConstants.{MAX_LATENCY};

use crate::alternative::Alternatives;
use std::marker::Model;

/// The latency of one opcode and its alternatives. Contracts see both.
#[derive(Drop)]
pub struct OpcodeTable {
    latency: u8,
    alternatives: Alternatives,
}

impl Model for OpcodeTable {
    ghost use Rattle.machine_data.specs.Machines.{OperationData};

    ghost Value = { OperationData };

    ghost use Rattle.std.specs.Prelude.{◌<◌, ◌≤◌};

    ghost view = { λ t. record { latency = t.latency; alternatives = t.alternatives } };

    ghost invariant = { λ t. (0 < t.latency) × (t.latency ≤ 64) };
}

impl OpcodeTable {
    /// Operations that take `latency` cycles, by these alternatives.
    pub fn new(latency: u8, alternatives: Alternatives) -> OpcodeTable
        requires some { 0 < latency }
        requires few { latency ≤ MAX_LATENCY }
        ensures { result ≡ record { latency = latency; alternatives = alternatives } }
    {
        OpcodeTable {
            latency,
            alternatives,
        }
    }

    /// How many cycles after its issue an operation's result lands, 1 to 64.
    pub fn latency(&self) -> u8
        ensures value { result ≡ self.now.latency }
        ensures some { 0 < result }
        ensures few { result ≤ 64 }
    {
        self.latency
    }

    /// The alternatives by which operations may be issued.
    pub fn alternatives(&self) -> &Alternatives
        ensures { result.now ≡ self.now.alternatives }
    {
        &self.alternatives
    }
}
