//! The least interval of a loop that gives a kernel, and why those before it give none.

ghost use Rattle.std.specs.Prelude.{◌≡◌, [], IfOk, length};
ghost use Rattle.loop_schedules.specs.Problems.{ProblemData};
ghost use Rattle.figures.specs.Figures.{AreFigures};
ghost use Rattle.told_choices.specs.Told.{IsTold};
ghost use Rattle.told_choices.specs.inner.Choosing.{IsChosenWith};
ghost use Rattle.told_choices.specs.inner.Collected.{AreFailures, AreReasons};

use crate::chosen::Chosen;
use crate::failures::Failures;
use crate::why::Why;
use candidates::Cause;
use figures::{Figures, figures_of};
use loop_schedules::{Prepared, Schedule};
use machine_data::OutOfMemory;
use std::alloc::Global;
use told_intervals::{Met, ToldTrials, Tried};

/// What is chosen for a loop, and why each interval that was tried and gives no kernel gives none.
#[derive(Drop)]
pub struct Told<'a> {
    /// Why each interval that was tried and gives no kernel gives none: from the least one on, one after another.
    pub reasons: Vec<Why>,
    /// What is chosen, with the evidence of it.
    pub chosen: Chosen<'a>,
}

/// The choice of a loop, as [`first_success`](candidates::first_success) makes it, by one attempt at each interval: with the
/// schedule, its figures and the registers of its kernel, and why each interval that was tried gives none.
///
/// # Errors
/// Memory ran out.
pub fn choose_told<'a>(alloc: Global, prepared: &'a Prepared) -> Result<Told<'a>, OutOfMemory>
    ensures told { IfOk result (IsTold prepared.now) }
{
    let mut failures = Failures::new(alloc);
    match choose(alloc, prepared, &mut failures) {
        Ok(chosen) => Ok(Told {
            reasons: failures.list,
            chosen,
        }),
        Err(fault) => Err(fault),
    }
}

/// What is chosen, by one attempt at each interval. Why those before it give no kernel is added to the failures, which have none yet.
fn choose<'a>(
    alloc: Global,
    prepared: &'a Prepared,
    failures: &mut Failures<'a>,
) -> Result<Chosen<'a>, OutOfMemory>
    requires none { failures.old.list.items ≡ [] }
    requires are { AreFailures prepared.now failures.old.list.items failures.old.lack }
    ensures { IfOk result (λ chosen. IsTold prepared.now (record { reasons = failures.new.list; chosen = chosen })) }
{
    let mut trials = ToldTrials::of(prepared);
    choose_by(alloc, prepared, &mut trials, failures)
}

/// The same by trials, which have tried no interval yet.
fn choose_by<'a>(
    alloc: Global,
    prepared: &'a Prepared,
    trials: &mut ToldTrials<'a>,
    failures: &mut Failures<'a>,
) -> Result<Chosen<'a>, OutOfMemory>
    requires trials { trials.old ≡ prepared.now }
    requires none { failures.old.list.items ≡ [] }
    requires are { AreFailures prepared.now failures.old.list.items failures.old.lack }
    ensures { IfOk result (λ chosen. IsTold prepared.now (record { reasons = failures.new.list; chosen = chosen })) }
{
    let mut last = Cause::Table;
    for above in 0..prepared.ceiling() + 1 {
        let ii = prepared.mii() + above;
        match trials.try_told(alloc, ii) {
            Err(fault) => return Err(fault),
            Ok(Tried::Met(met)) => return with_figures(alloc, failures, ii, met),
            Ok(Tried::Failed(reason)) => {
                last = reason.cause();
                if let Err(fault) = failures.add(alloc, reason) {
                    return Err(fault);
                }
            }
        }
    }
    match failures.tell_last(alloc) {
        Ok(()) => Ok(Chosen::Failed(last)),
        Err(fault) => Err(fault),
    }
}

/// The choice of an interval, with the figures of its schedule. No interval fails after it.
fn with_figures<'a>(
    alloc: Global,
    failures: &mut Failures<'a>,
    ii: u64,
    met: Met<'a>,
) -> Result<Chosen<'a>, OutOfMemory>
    requires { (problem : ProblemData) × AreFailures problem failures.old.list.items failures.old.lack }
    ensures { (problem : ProblemData) → AreFailures problem failures.old.list.items failures.old.lack
        → IfOk result (λ chosen. AreReasons problem (length failures.old.list.items) failures.new.list.items × IsChosenWith ii met.entry chosen) }
{
    match figures_at_last(alloc, failures, &met.schedule) {
        Ok(figures) => Ok(Chosen::Met(ii, met, figures)),
        Err(fault) => Err(fault),
    }
}

/// The figures of a schedule, after which no interval fails.
fn figures_at_last<'a>(
    alloc: Global,
    failures: &mut Failures<'a>,
    schedule: &Schedule<'a>,
) -> Result<Figures, OutOfMemory>
    requires { (problem : ProblemData) × AreFailures problem failures.old.list.items failures.old.lack }
    ensures { (problem : ProblemData) → AreFailures problem failures.old.list.items failures.old.lack
        → IfOk result (λ figures. AreReasons problem (length failures.old.list.items) failures.new.list.items × AreFigures schedule.now figures) }
{
    failures.tell_last(alloc)?;
    figures_of(alloc, schedule)
}
