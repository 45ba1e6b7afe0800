//! Laws of intervals, choices and listings, stated by the contracts of functions that do nothing.

ghost use Rattle.candidates.specs.Outcomes.{OneOutcome};
ghost use Rattle.candidates.specs.Choices.{OneChoice};
ghost use Rattle.candidates.specs.Promises.{KernelsKeepLoops, KernelsRunAsLoops, ListingsAreRight, OneListing};

/// An interval gives one thing.
pub fn interval_laws()
    ensures one { OneOutcome }
{}

/// A loop has one choice.
pub fn choice_laws()
    ensures one { OneChoice }
{}

/// Loops, a machine, a ratio and a ceiling have one listing.
pub fn one_listing()
    ensures { OneListing }
{}

/// The kernel that an interval gives has the loop's operations, the machine's latencies and registers, and
/// keeps every dependence of the loop and every unit of the machine.
pub fn kernels_keep_loops()
    ensures { KernelsKeepLoops }
{}

/// The run of that kernel leaves of each memory what the loop leaves of it, for each trip count.
pub fn kernels_run_as_loops()
    ensures { KernelsRunAsLoops }
{}

/// Each kernel of a listing keeps the dependences and units, and runs as its loop.
pub fn listings_are_right()
    ensures { ListingsAreRight }
{}
