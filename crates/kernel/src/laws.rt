//! What runs and rules promise: laws, stated by the contracts of functions that do nothing.

ghost use Rattle.kernel.specs.Promises.{RunsKeepShapes, WellFormedKeepsRules};

/// A run leaves a memory of the kernel's shape, for the same number of iterations.
pub fn runs_keep_shapes()
    ensures { RunsKeepShapes }
{}

/// Well-formed parts keep each rule, so [`Kernel::check`](crate::Kernel::check) makes a kernel of them.
pub fn well_formed_keeps_rules()
    ensures { WellFormedKeepsRules }
{}
