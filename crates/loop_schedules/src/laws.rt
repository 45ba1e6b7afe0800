//! Laws of prepared loops and their schedules, stated by the contracts of functions that do nothing.

ghost use Rattle.loop_schedules.specs.Promises.{OneProblem, ProblemsHaveGraphs, SchedulesKeepDependences, StagesAreFew};

/// A loop, a machine and settings have one problem.
pub fn one_problem()
    ensures { OneProblem }
{}

/// A problem of a loop on a machine has the loop's graph there.
pub fn problems_have_graphs()
    ensures { ProblemsHaveGraphs }
{}

/// A schedule keeps each dependence of its loop.
pub fn schedules_keep_dependences()
    ensures { SchedulesKeepDependences }
{}

/// A schedule has 1 to 64 stages, and each operation's is one of them.
pub fn stages_are_few()
    ensures { StagesAreFew }
{}
