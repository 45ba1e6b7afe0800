//! What circuits tell of the lower bound: laws, stated by the contracts of functions that do nothing.

ghost use Rattle.circuits.specs.Promises.{BoundsHaveCircuits, CircuitsBoundIntervals};

/// A circuit that does not fit an interval tells that the recurrence-constrained lower bound is longer.
pub fn circuits_bound_intervals()
    ensures { CircuitsBoundIntervals }
{}

/// Where the recurrence-constrained lower bound is not 1, some circuit does not fit one cycle less.
pub fn bounds_have_circuits()
    ensures { BoundsHaveCircuits }
{}
