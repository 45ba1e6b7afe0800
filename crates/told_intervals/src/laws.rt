//! A law of intervals that are told with their evidence, stated by the contract of a function that does nothing.

ghost use Rattle.told_intervals.specs.Reasons.{TriedIsGiven};

/// What is told of an interval with its evidence is what the interval gives: its kernel, or the cause of the reason for
/// which there is none.
pub fn tried_is_given()
    ensures { TriedIsGiven }
{}
