//! Why intervals that are tried one after another give no kernel, while they are tried.

ghost use Rattle.std.specs.Prelude.{◌≡◌, ◌+◌, [], IfOk, length};
ghost use Rattle.told_intervals.specs.Reasons.{FailsFor};
ghost use Rattle.told_intervals.specs.declared.evidence.Reason.TheVariants.{Register};
ghost use Rattle.loop_schedules.specs.Problems.{ProblemData, mii_of};
ghost use Rattle.told_choices.specs.inner.Collected.{AreFailures, AreReasons, is_never};

use crate::why::Why;
use loop_schedules::Schedule;
use machine_data::OutOfMemory;
use rotating::{Lifetime, least_registers};
use std::alloc::Global;
use told_intervals::Reason;

/// Which of the intervals failed for registers.
#[derive(Drop)]
pub(crate) enum Lack<'a> {
    /// None.
    Never,
    /// One, whose need is told.
    Once,
    /// Several. This is the last one: its place among them, its first value that has no register, and its schedule, whose
    /// need is not sought before it is known that no other one follows.
    Again(usize, Lifetime, Schedule<'a>),
}

impl<'a> Lack<'a> {
    /// Whether none did.
    fn is_never(&self) -> bool
        ensures { result ≡ is_never self.now }
    {
        matches!(self, Lack::Never)
    }
}

/// Why intervals give no kernel, from the least one on.
#[derive(Drop)]
pub(crate) struct Failures<'a> {
    pub(crate) list: Vec<Why>,
    pub(crate) lack: Lack<'a>,
}

impl<'a> Failures<'a> {
    /// No interval is tried yet.
    pub(crate) fn new(alloc: Global) -> Failures<'a>
        ensures none { result.list.items ≡ [] }
        ensures are { (problem : ProblemData) → AreFailures problem result.list.items result.lack }
    {
        Failures {
            list: Vec::new(alloc),
            lack: Lack::Never,
        }
    }

    /// Adds why the next interval gives none.
    pub(crate) fn add(&mut self, alloc: Global, reason: Reason<'a>) -> Result<(), OutOfMemory>
        ensures more { IfOk result (λ _. length self.new.list.items ≡ length self.old.list.items + 1) }
        ensures are { (problem : ProblemData) → AreFailures problem self.old.list.items self.old.lack → FailsFor problem (mii_of problem + length self.old.list.items) reason.entry
            → IfOk result (λ _. AreFailures problem self.new.list.items self.new.lack) }
    {
        match reason {
            Reason::Attempt(culprit) => Ok(self.list.push(Why::Attempt(culprit))?),
            Reason::Register(life, schedule) => self.add_lack(alloc, life, schedule),
        }
    }

    /// Adds that the next interval has this schedule, and the first of its values that has no register.
    fn add_lack(
        &mut self,
        alloc: Global,
        life: Lifetime,
        schedule: Schedule<'a>,
    ) -> Result<(), OutOfMemory>
        ensures more { IfOk result (λ _. length self.new.list.items ≡ length self.old.list.items + 1) }
        ensures are { (problem : ProblemData) → AreFailures problem self.old.list.items self.old.lack → FailsFor problem (mii_of problem + length self.old.list.items) (Register life schedule.entry)
            → IfOk result (λ _. AreFailures problem self.new.list.items self.new.lack) }
    {
        if self.lack.is_never() {
            let need = least_registers(alloc, &schedule)?;
            self.lack = Lack::Once;
            self.list.push(Why::Need(life, need))?;
        } else {
            self.lack = Lack::Again(self.list.len(), life, schedule);
            self.list.push(Why::Register(life))?;
        }
        Ok(())
    }

    /// Tells the need of the last one that failed for registers, too, so that it is told why all of them give none.
    pub(crate) fn tell_last(&mut self, alloc: Global) -> Result<(), OutOfMemory>
        requires { (problem : ProblemData) × AreFailures problem self.old.list.items self.old.lack }
        ensures { (problem : ProblemData) → AreFailures problem self.old.list.items self.old.lack
            → IfOk result (λ _. AreReasons problem (length self.old.list.items) self.new.list.items) }
    {
        match &self.lack {
            Lack::Never | Lack::Once => Ok(()),
            Lack::Again(place, life, schedule) => {
                let need = least_registers(alloc, schedule)?;
                self.list[*place] = Why::Need(*life, need);
                Ok(())
            }
        }
    }
}
