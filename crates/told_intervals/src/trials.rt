//! Intervals of one loop, tried one after another, with the evidence for what each comes to.

ghost use Rattle.std.specs.Prelude.{◌≡◌, ◌≤◌, IfOk};
ghost use Rattle.loop_schedules.specs.Problems.{mii_of};
ghost use Rattle.candidates.specs.Choices.{last_of};
ghost use Rattle.told_intervals.specs.Reasons.{IsTried};

use crate::evidence::{Tried, tried_on};
use candidates::table_at;
use loop_schedules::Prepared;
use machine_data::OutOfMemory;
use mrt::DefaultTable;
use std::alloc::Global;
use std::marker::Model;

/// Tries intervals of a loop one after another as [`Trials`](candidates::Trials) does, and gives the evidence for what each
/// comes to. Contracts see the loop.
#[derive(Drop)]
pub struct ToldTrials<'a> {
    prepared: &'a Prepared,
    /// The table of the last interval that was tried.
    table: Option<DefaultTable>,
}

impl<'a> Model for ToldTrials<'a> {
    ghost use Rattle.std.specs.Prelude.{◌≡◌, IfSome};
    ghost use Rattle.loop_schedules.specs.Problems.{ProblemData};

    ghost Value = { ProblemData };

    ghost view = { λ t. t.prepared.now };

    ghost invariant = { λ t. IfSome t.table (λ table. table.operations ≡ t.prepared.now.operations) };
}

impl<'a> ToldTrials<'a> {
    /// No interval is tried yet.
    pub fn of(prepared: &'a Prepared) -> ToldTrials<'a>
        ensures { result ≡ prepared.now }
    {
        ToldTrials {
            prepared,
            table: None,
        }
    }

    /// What the loop gives at an interval, in cycles, with the evidence for it: the schedule and the registers of its kernel, or what
    /// keeps it from one. The limits are those of [`Trials::try_interval`](candidates::Trials::try_interval), and so is what it gives.
    ///
    /// # Errors
    /// Memory ran out.
    pub fn try_told(&mut self, alloc: Global, ii: u64) -> Result<Tried<'a>, OutOfMemory>
        requires from_mii { mii_of self.old ≤ ii }
        requires to_last { ii ≤ last_of self.old }
        ensures same { self.new ≡ self.old }
        ensures exact { IfOk result (IsTried self.old ii) }
    {
        let mut table = table_at(alloc, self.prepared, self.table.take(), ii)?;
        let tried = tried_on(alloc, self.prepared, &mut table);
        self.table = Some(table);
        tried
    }
}
