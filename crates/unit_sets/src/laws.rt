//! What sets of units tell of schedules: laws, each stated by the contract of a function that does nothing.

ghost use Rattle.unit_sets.specs.Fullest.{FullestIsBound, FullestIsUsed};
ghost use Rattle.unit_sets.specs.Sets.{SchedulesKeepSets};

/// Every lawful schedule at an interval keeps the bound of every set of units, no matter how the set is found: the rows that the
/// operations need of it are at most its units times the cycles of the interval.
pub fn schedules_keep_sets()
    ensures { SchedulesKeepSets }
{}

/// The fullest set of units of operations needs as long an interval as each of the first sets, and no lawful schedule of the operations
/// has a shorter one.
pub fn fullest_is_bound()
    ensures { FullestIsBound }
{}

/// The fullest set of units of operations is not empty, and each of its units is one that some operation can take.
pub fn fullest_is_used()
    ensures { FullestIsUsed }
{}
