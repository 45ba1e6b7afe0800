//! The least interval that has a solution.

ghost use Rattle.std.specs.Prelude.{◌≡◌, None, IfOk};
ghost use Rattle.solutions.specs.declared.solving.outcome.Outcome.TheVariants.{Met};
ghost use Rattle.solutions.specs.Outcomes.{IsSolved, last_of};
ghost use Rattle.solutions.specs.Runs.{IsRightOutcome};
ghost use Rattle.solutions.specs.Told.{IsSearched};
ghost use Rattle.solutions.specs.inner.Searching.{IsFirstMet, NoneBefore};

use crate::solution::Solution;
use crate::solving::outcome::Outcome;
use crate::solving::trials::Trials;
use crate::solving::tried::Tried;
use machine_data::OutOfMemory;
use modulo::Culprit;
use problems::Problem;
use std::alloc::Global;

/// What a search for a solution came to, with the culprits where it found none.
#[derive(Drop)]
pub struct Solved<'a> {
    /// The solution, or why there is none.
    pub outcome: Outcome<'a>,
    /// The culprits of the last interval that was tried, where no interval gave a solution; of a lack of registers nobody.
    pub culprit: Option<Culprit>,
}

impl<'a> Solved<'a> {
    /// A solution was found.
    fn met(solution: Solution<'a>) -> Solved<'a>
        ensures { result ≡ record { outcome = Met solution.entry; culprit = None } }
    {
        Solved {
            outcome: Outcome::Met(solution),
            culprit: None,
        }
    }
}

/// Solves a problem: it tries the intervals one after another, from the greater of the two lower bounds on and at most as
/// far above it as the problem's ceiling says, and gives the solution of the first one that has one: the schedule of one
/// budgeted attempt, and in each rotating file the least numbers of its values.
///
/// # Errors
/// Memory ran out.
pub fn solve<'a>(alloc: Global, problem: &'a Problem) -> Result<Outcome<'a>, OutOfMemory>
    ensures exact { IfOk result (IsSolved problem.now) }
    ensures right { IfOk result IsRightOutcome }
{
    let solved = solve_with_culprit(alloc, problem)?;
    Ok(solved.outcome)
}

/// Solves a problem as [`solve`] does, and gives the culprits of the last interval that it tried, where none gives a solution.
///
/// # Errors
/// Memory ran out.
pub fn solve_with_culprit<'a>(
    alloc: Global,
    problem: &'a Problem,
) -> Result<Solved<'a>, OutOfMemory>
    ensures { IfOk result (IsSearched problem.now) }
{
    let mut trials = Trials::of(alloc, problem)?;
    search(alloc, problem, &mut trials)
}

/// The intervals of a problem, tried one after another until one gives a solution. Of the last one alone it is told why it gives none.
fn search<'a>(
    alloc: Global,
    problem: &'a Problem,
    trials: &mut Trials<'a>,
) -> Result<Solved<'a>, OutOfMemory>
    requires { trials.old ≡ problem.now }
    ensures { IfOk result (IsSearched problem.now) }
{
    match first_met(alloc, problem, trials) {
        Err(fault) => Err(fault),
        Ok(Some(solution)) => Ok(Solved::met(solution)),
        Ok(None) => try_last(alloc, problem, trials),
    }
}

/// The solution of the first interval before the last one that gives one.
fn first_met<'a>(
    alloc: Global,
    problem: &'a Problem,
    trials: &mut Trials<'a>,
) -> Result<Option<Solution<'a>>, OutOfMemory>
    requires { trials.old ≡ problem.now }
    ensures same { trials.new ≡ problem.now }
    ensures found { IfOk result (IsFirstMet problem.now) }
{
    let scheduling = problem.scheduling();
    let mii = scheduling.mii();
    let ceiling = scheduling.ceiling();
    for above in 0..ceiling {
        match trials.try_met(alloc, mii + above) {
            Err(fault) => return Err(fault),
            Ok(Some(solution)) => return Ok(Some(solution)),
            Ok(None) => {}
        }
    }
    Ok(None)
}

/// What the last interval gives, where none before it gives a solution.
fn try_last<'a>(
    alloc: Global,
    problem: &'a Problem,
    trials: &mut Trials<'a>,
) -> Result<Solved<'a>, OutOfMemory>
    requires same { trials.old ≡ problem.now }
    requires none { NoneBefore problem.now (last_of problem.now) }
    ensures { IfOk result (IsSearched problem.now) }
{
    let scheduling = problem.scheduling();
    match trials.try_told(alloc, scheduling.mii() + scheduling.ceiling()) {
        Err(fault) => Err(fault),
        Ok(Tried::Met(solution)) => Ok(Solved::met(solution)),
        Ok(Tried::Failed(failure)) => Ok(Solved {
            outcome: Outcome::Failed(failure.cause),
            culprit: failure.culprit,
        }),
    }
}
