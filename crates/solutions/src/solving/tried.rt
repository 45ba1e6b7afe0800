//! What one interval gives, with the culprits of its failure.

ghost use Rattle.std.specs.Prelude.{◌≡◌, Some};
ghost use Rattle.modulo.specs.Culprits.{failure_of};
ghost use Rattle.solutions.specs.Outcomes.{cause_of};

use crate::solution::Solution;
use crate::solving::outcome::Cause;
use modulo::Culprit;

/// Why an interval gives no solution, and who keeps it from one.
#[derive(Drop)]
pub struct Failure {
    /// The cause.
    pub cause: Cause,
    /// The culprits of the cause; nobody where registers lack, since that cause names the value that has none.
    pub culprit: Option<Culprit>,
}

/// What an interval gives, with the culprits where it gives no solution.
#[derive(Drop)]
pub enum Tried<'a> {
    /// A solution.
    Met(Solution<'a>),
    /// No solution, and why.
    Failed(Failure),
}

/// The cause by which these culprits keep an attempt from a schedule.
fn cause_by(culprit: &Culprit) -> Cause
    ensures { result ≡ cause_of (failure_of culprit.now) }
{
    match culprit {
        Culprit::Blocked(_) => Cause::Table,
        Culprit::Unplaced(_) => Cause::Budget,
        Culprit::Late(_, _) => Cause::Stages,
    }
}

impl Failure {
    /// The failure of an attempt that these culprits keep from a schedule.
    pub(crate) fn by(culprit: Culprit) -> Failure
        ensures cause { result.cause ≡ cause_of (failure_of culprit) }
        ensures culprit { result.culprit ≡ Some culprit }
    {
        let cause = cause_by(&culprit);
        Failure {
            cause,
            culprit: Some(culprit),
        }
    }
}
