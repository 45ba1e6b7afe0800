//! What the line `least possible` means: a law, stated by the contract of a function that does nothing.

ghost use Rattle.reason_lines.specs.Least.{LeastIsLeast};

/// Where an interval is what the fullest set of units or the recurrences need, no lawful schedule of the operations has a shorter one.
pub fn least_is_least()
    ensures { LeastIsLeast }
{}
