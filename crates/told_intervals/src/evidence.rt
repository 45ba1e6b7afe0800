//! Intervals with their evidence: what makes an interval's kernel, and what keeps it from one.

ghost use Rattle.std.specs.Prelude.{◌≡◌, ◌≤◌, length, replicate, None, IfOk};
ghost use Rattle.loop_schedules.specs.Problems.{mii_of};
ghost use Rattle.candidates.specs.Choices.{last_of};
ghost use Rattle.told_intervals.specs.Reasons.{IsTried, reason_cause};

use candidates::budget;
use ims::{Answer, Culprit, answer_on};
use kernel::Kernel;
use loop_listings::Cause;
use loop_schedules::{Prepared, Schedule};
use machine_data::OutOfMemory;
use mrt::DefaultTable;
use rotating::{Allotment, Allotted, Lifetime, allot_or_lack, emit};
use std::alloc::Global;

/// Why an interval failed.
#[derive(Drop)]
pub enum Reason<'a> {
    /// What keeps the attempt from a schedule.
    Attempt(Culprit),
    /// The first value of the schedule that has no register, and the schedule.
    Register(Lifetime, Schedule<'a>),
}

impl<'a> Reason<'a> {
    /// The cause that it is a reason of.
    pub fn cause(&self) -> Cause
        ensures value { result ≡ reason_cause self.now }
    {
        match self {
            Reason::Attempt(culprit) => Cause::of(culprit),
            Reason::Register(_, _) => Cause::Registers,
        }
    }
}

/// What an interval gives, with the evidence of it.
#[derive(Drop)]
pub struct Met<'a> {
    /// The kernel of the schedule and the allotment.
    pub kernel: Kernel,
    /// The schedule that the attempt found.
    pub schedule: Schedule<'a>,
    /// The least registers of the schedule's values.
    pub allotment: Allotment,
}

/// What an interval comes to, with the evidence of it.
#[derive(Drop)]
pub enum Tried<'a> {
    /// A kernel, with its schedule and its registers.
    Met(Met<'a>),
    /// No kernel, and what keeps the interval from one.
    Failed(Reason<'a>),
}

/// What a loop gives at the interval of a table of its operations, with nothing placed, and the evidence of it.
pub(crate) fn tried_on<'a>(
    alloc: Global,
    prepared: &'a Prepared,
    table: &mut DefaultTable,
) -> Result<Tried<'a>, OutOfMemory>
    requires operations { table.old.operations ≡ prepared.now.operations }
    requires empty { table.old.placed ≡ replicate (length prepared.now.operations) None }
    requires from_mii { mii_of prepared.now ≤ table.old.interval }
    requires to_last { table.old.interval ≤ last_of prepared.now }
    ensures exact { IfOk result (IsTried prepared.now table.old.interval) }
    ensures operations { table.new.operations ≡ table.old.operations }
{
    let schedule = match answer_on(alloc, prepared, table, budget(prepared))? {
        Answer::Placed(schedule) => schedule,
        Answer::Failed(culprit) => return Ok(Tried::Failed(Reason::Attempt(culprit))),
    };
    let allotment = match allot_or_lack(alloc, &schedule, u64::from(prepared.registers()))? {
        Allotted::All(allotment) => allotment,
        Allotted::Lacks(life) => return Ok(Tried::Failed(Reason::Register(life, schedule))),
    };
    let kernel = emit(alloc, prepared.innermost(), &schedule, &allotment)?;
    Ok(Tried::Met(Met {
        kernel,
        schedule,
        allotment,
    }))
}
