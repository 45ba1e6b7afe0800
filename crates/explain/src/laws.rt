//! What circuits need, and what the line `least possible` means: laws, each stated by the contract of a function that does nothing.

ghost use Rattle.explain.specs.CircuitTexts.{CircuitsNeedBounds};
ghost use Rattle.explain.specs.Tries.{LeastIsLeast};

/// The recurrence-constrained lower bound is what a critical circuit needs: its delay over its distance,
/// rounded up.
pub fn circuits_need_bounds()
    ensures { CircuitsNeedBounds }
{}

/// Where the line `least possible` stands, no lawful schedule of the loop has a shorter interval than that of its kernel.
pub fn least_is_least()
    ensures { LeastIsLeast }
{}
