//! What a loop has on a machine and on the variants of it.

ghost use Rattle.std.specs.Prelude.{◌≡◌};
ghost use Rattle.variants.specs.Texts.{is_met};

/// What a loop has on the machine as it is.
#[derive(Clone, Copy, PartialEq, Eq)]
pub enum Standing {
    /// No interval gives a kernel.
    Failed,
    /// Its interval, in cycles, and the least number of registers with which it has that interval.
    Met(u64, u16),
}

/// What a loop has on a variant of the machine.
#[derive(Clone, Copy, PartialEq, Eq)]
pub enum Finding {
    /// The variant passes a limit.
    Limit,
    /// No interval gives a kernel.
    Failed,
    /// Its interval, in cycles.
    Met(u64),
}

/// What is found of a loop.
#[derive(Drop)]
pub struct LoopFindings {
    /// What it has on the machine as it is.
    pub standing: Standing,
    /// What it has on each variant of the machine, in their order, and nothing for one that does not concern it.
    pub findings: Vec<Option<Finding>>,
}

impl Standing {
    /// Whether the loop has an interval.
    pub(crate) fn is_met(self) -> bool
        ensures { result ≡ is_met self }
    {
        matches!(self, Standing::Met(_, _))
    }
}
