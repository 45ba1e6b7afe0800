//! What the line `least possible` means: a law, stated by the contract of a function that does nothing.

ghost use Rattle.problem_reasons.specs.Tries.{LeastIsLeast};

/// Where the line `least possible` stands, no lawful schedule of the problem has a shorter interval than that of its solution.
pub fn least_is_least()
    ensures { LeastIsLeast }
{}
