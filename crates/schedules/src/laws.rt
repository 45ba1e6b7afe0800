//! Laws of problems and schedules, stated by the contracts of functions that do nothing.

ghost use Rattle.schedules.specs.Promises.{BreachesBreak, OneBreach, OneProblem, StagesAreFew};

/// A list of times and alternatives that breaks something is no schedule.
pub fn breaches_break()
    ensures { BreachesBreak }
{}

/// A list of times and alternatives breaks one thing first.
pub fn one_breach()
    ensures { OneBreach }
{}

/// Edges, latencies, alternatives and settings have one problem.
pub fn one_problem()
    ensures { OneProblem }
{}

/// A schedule has 1 to 64 stages, and each operation's is one of them.
pub fn stages_are_few()
    ensures { StagesAreFew }
{}
