//! The least interval that has a solution, and why those before it have none.

ghost use Rattle.std.specs.Prelude.{◌≡◌, IfOk, OnOk};
ghost use Rattle.std.specs.Option.{option_copied};
ghost use Rattle.problems.specs.Problems.{ProblemData};
ghost use Rattle.solutions.specs.Told.{IsLastEvidence, IsTold, last_culprit};

use crate::solving::outcome::{Cause, Outcome};
use crate::solving::trials::Trials;
use crate::solving::tried::{Failure, Tried};
use machine_data::OutOfMemory;
use modulo::Culprit;
use problems::Problem;
use std::alloc::Global;

/// What a search for a solution came to, and why each interval before gave none.
#[derive(Drop)]
pub struct Told<'a> {
    /// Why each interval that was tried and gives no solution gives none: from the greater of the problem's lower bounds on, one
    /// after another.
    pub failures: Vec<Failure>,
    /// The solution, or why there is none: the cause of the last failure.
    pub outcome: Outcome<'a>,
}

impl<'a> Told<'a> {
    /// The culprits of the last interval that was tried, where no interval gave a solution; of a lack of registers nobody.
    pub fn culprit(&self) -> Option<&Culprit>
        ensures value { option_copied result ≡ last_culprit self.now.outcome self.now.failures.items }
        ensures evidence { (problem : ProblemData) → IsTold problem self.now → IsLastEvidence problem self.now.outcome (option_copied result) }
    {
        if let Outcome::Met(_) = self.outcome {
            return None;
        }
        match self.failures.last() {
            Some(failure) => failure.culprit.as_ref(),
            None => None,
        }
    }
}

/// Solves a problem as [`solve`](crate::solve) does, by one attempt at each interval, and tells of each interval that gives no
/// solution why. It takes memory besides only where an interval gives none.
///
/// # Errors
/// Memory ran out.
pub fn solve_told<'a>(alloc: Global, problem: &'a Problem) -> Result<Told<'a>, OutOfMemory>
    ensures told { IfOk result (IsTold problem.now) }
{
    let trials = Trials::of(alloc, problem)?;
    tell_each(alloc, problem, trials)
}

/// The intervals of a problem, tried one after another until one gives a solution.
fn tell_each<'a>(
    alloc: Global,
    problem: &'a Problem,
    mut trials: Trials<'a>,
) -> Result<Told<'a>, OutOfMemory>
    requires { trials ≡ problem.now }
    ensures told { IfOk result (IsTold problem.now) }
{
    let scheduling = problem.scheduling();
    let mii = scheduling.mii();
    let ceiling = scheduling.ceiling();
    let mut failures = Vec::new(alloc);
    let mut last = Cause::Table;
    for above in 0..ceiling + 1 {
        let ii = mii + above;
        match trials.try_told(alloc, ii) {
            Err(fault) => return Err(fault),
            Ok(Tried::Met(solution)) => {
                return Ok(Told {
                    failures,
                    outcome: Outcome::Met(solution),
                });
            }
            Ok(Tried::Failed(failure)) => {
                last = failure.cause;
                failures.push(failure)?;
            }
        }
    }
    Ok(Told {
        failures,
        outcome: Outcome::Failed(last),
    })
}
