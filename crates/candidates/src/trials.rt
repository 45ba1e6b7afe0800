//! Intervals of one loop, tried one after another.

ghost use Rattle.std.specs.Prelude.{◌≡◌, ◌≤◌, length, replicate, None, IfOk, IfSome};
ghost use Rattle.loop_schedules.specs.Problems.{mii_of};
ghost use Rattle.candidates.specs.Choices.{last_of};
ghost use Rattle.candidates.specs.Outcomes.{Gives};

use crate::outcomes::{Outcome, outcome_on};
use loop_schedules::Prepared;
use machine_data::OutOfMemory;
use mrt::{DefaultTable, ModuloTable};
use std::alloc::Global;
use std::marker::Model;

/// Tries intervals of a loop one after another, each over the reservation table of the one before it, so that
/// alternatives are prepared once. Contracts see the loop.
#[derive(Drop)]
pub struct Trials<'a> {
    prepared: &'a Prepared,
    /// The table of the last interval that was tried.
    table: Option<DefaultTable>,
}

impl<'a> Model for Trials<'a> {
    ghost use Rattle.std.specs.Prelude.{◌≡◌, IfSome};
    ghost use Rattle.loop_schedules.specs.Problems.{ProblemData};

    ghost Value = { ProblemData };

    ghost view = { λ t. t.prepared.now };

    ghost invariant = { λ t. IfSome t.table (λ table. table.operations ≡ t.prepared.now.operations) };
}

impl<'a> Trials<'a> {
    /// No interval is tried yet.
    pub fn of(prepared: &'a Prepared) -> Trials<'a>
        ensures { result ≡ prepared.now }
    {
        Trials {
            prepared,
            table: None,
        }
    }

    /// What the loop gives at an interval: [`try_interval`](crate::try_interval), with the same limits.
    ///
    /// # Errors
    /// Memory ran out.
    pub fn try_interval(&mut self, alloc: Global, ii: u64) -> Result<Outcome, OutOfMemory>
        requires from_mii { mii_of self.old ≤ ii }
        requires to_last { ii ≤ last_of self.old }
        ensures same { self.new ≡ self.old }
        ensures exact { IfOk result (Gives self.old ii) }
    {
        let mut table = table_at(alloc, self.prepared, self.table.take(), ii)?;
        let outcome = outcome_on(alloc, self.prepared, &mut table);
        self.table = Some(table);
        outcome
    }
}

/// The table of a loop's operations at an interval, in cycles, with nothing placed: made over `last`, the loop's table at another
/// interval, where there is one, so that alternatives are prepared once.
///
/// # Errors
/// Memory ran out.
pub fn table_at(
    alloc: Global,
    prepared: &Prepared,
    last: Option<DefaultTable>,
    ii: u64,
) -> Result<DefaultTable, OutOfMemory>
    requires from_mii { mii_of prepared.now ≤ ii }
    requires to_last { ii ≤ last_of prepared.now }
    requires same_loop { IfSome last (λ table. table.operations ≡ prepared.now.operations) }
    ensures operations { IfOk result (λ table. table.operations ≡ prepared.now.operations) }
    ensures empty { IfOk result (λ table. table.placed ≡ replicate (length prepared.now.operations) None) }
    ensures interval { IfOk result (λ table. table.interval ≡ ii) }
{
    prove!(prepared.mii() >= 1);
    match last {
        Some(table) => table.at(ii),
        None => prepared.table(alloc, ii),
    }
}
