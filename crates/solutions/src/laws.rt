//! Laws of solutions, stated by the contracts of functions that do nothing.

ghost use Rattle.solutions.specs.Breaks.{BrokenIsUnlawful};
ghost use Rattle.solutions.specs.Promises.{CopiesAreCrowds, CopiesAreEnough, GivesIsLawful, LawfulSolutionsAreRuns, LivesAreInOrder, OneOutcome, UnrollIsEnough};

/// Whatever [`Solution::check`](crate::Solution::check) names, the lists are no solution.
pub fn broken_is_unlawful()
    ensures { BrokenIsUnlawful }
{}

/// What an interval gives is a lawful solution.
pub fn gives_is_lawful()
    ensures { GivesIsLawful }
{}

/// In the run of a lawful solution the values' registers hold the right instances.
pub fn lawful_solutions_are_runs()
    ensures { LawfulSolutionsAreRuns }
{}

/// A problem has one outcome.
pub fn one_outcome()
    ensures { OneOutcome }
{}

/// In a lawful solution the interval has a cycle, and each value lives in one at least.
pub fn lives_are_in_order()
    ensures { LivesAreInOrder }
{}

/// The copies of a value are the most of its instances that live in one cycle.
pub fn copies_are_crowds()
    ensures { CopiesAreCrowds }
{}

/// As many names as a value has copies are enough for its instances, and fewer are too few.
pub fn copies_are_enough()
    ensures { CopiesAreEnough }
{}

/// A body that is repeated [`unroll`](crate::Solution::unroll) times gives each instance that lives a name of its own, and one
/// that is repeated less often does not.
pub fn unroll_is_enough()
    ensures { UnrollIsEnough }
{}
