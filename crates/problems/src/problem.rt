//! Scheduling problems.

ghost use Rattle.std.specs.Prelude.{◌≡◌, ◌<◌, [], length, map, None, IfOk};
ghost use Rattle.std.specs.List.{All, slice_index_or};
ghost use Rattle.problems.specs.Faults.{first_fault_of};
ghost use Rattle.problems.specs.Problems.{IsProblem, IsProblemOf, AnswersDraft};

use crate::checking::first::first_fault;
use crate::draft::Draft;
use crate::fault::Refusal;
use crate::making::scheduling::scheduling_of;
use crate::making::tables::{Tables, tables_of};
use machine_data::{Alternatives, OutOfMemory};
use settings::Settings;
use std::alloc::Global;
use std::marker::Model;

/// A draft with no fault, and what is scheduled of it. Contracts see both, and know that they belong together.
#[derive(Drop)]
pub struct Problem {
    draft: Draft,
    /// The alternatives of the operations.
    tables: Tables,
    scheduling: schedules::Problem,
}

impl Model for Problem {
    ghost use Rattle.problems.specs.Problems.{ProblemData, IsProblem};
    ghost use Rattle.problems.specs.inner.Listed.{AreListed};

    ghost Value = { ProblemData };

    ghost view = { λ p. record { draft = p.draft; scheduling = p.scheduling } };

    ghost invariant = { λ p. IsProblem (record { draft = p.draft; scheduling = p.scheduling }) × AreListed p.tables.lists.items p.tables.numbers.items p.scheduling.operations };
}

impl Problem {
    /// The problem of a draft, to be scheduled with the ratio and the ceiling of the settings.
    ///
    /// # Errors
    /// [`Refusal::Fault`] with the first fault of the draft, just where it has one, and [`Refusal::Memory`] where
    /// memory ran out.
    pub fn new(alloc: Global, draft: Draft, settings: &Settings) -> Result<Problem, Refusal>
        ensures exact { AnswersDraft draft settings.now.ratio settings.now.ceiling result }
    {
        if let Some(fault) = first_fault(alloc, &draft)? {
            return Err(Refusal::Fault(fault));
        }
        Ok(Problem::of_faultless(alloc, draft, settings)?)
    }

    /// The problem of a draft that is known to have no fault, as [`Problem::new`] gives it: the draft is not tested again.
    ///
    /// # Errors
    /// Memory ran out.
    pub fn of_faultless(
        alloc: Global,
        draft: Draft,
        settings: &Settings,
    ) -> Result<Problem, OutOfMemory>
        requires { first_fault_of draft ≡ None }
        ensures { IfOk result (IsProblemOf draft settings.now.ratio settings.now.ceiling) }
    {
        let tables = tables_of(alloc, &draft)?;
        let scheduling = scheduling_of(
            alloc,
            &draft,
            &tables,
            settings.ratio(),
            settings.ceiling(),
        )?;
        Ok(Problem {
            draft,
            tables,
            scheduling,
        })
    }

    /// The draft.
    pub fn draft(&self) -> &Draft
        ensures value { result.now ≡ self.now.draft }
        ensures well_formed { IsProblem self.now }
    {
        &self.draft
    }

    /// The draft, and nothing else of the problem.
    pub fn into_draft(self) -> Draft
        ensures { result ≡ self.draft }
    {
        self.draft
    }

    /// The alternatives of the operations: lists of them, and of each operation the number of its list, from 0. Operations of one
    /// kind have one list, and kinds after one another that have the same alternatives share theirs.
    pub fn tables(&self) -> (&[Alternatives], &[usize])
        ensures there { All (λ number. number < length result.0.now) result.1.now }
        ensures same { map (λ number. slice_index_or result.0.now number []) result.1.now ≡ self.now.scheduling.operations }
        ensures well_formed { IsProblem self.now }
    {
        (self.tables.lists.as_slice(), self.tables.numbers.as_slice())
    }

    /// What is scheduled: the operations, each with the latency and the alternatives of its kind, and the edges that the
    /// reads and the orders come to.
    pub fn scheduling(&self) -> &schedules::Problem
        ensures value { result.now ≡ self.now.scheduling }
        ensures well_formed { IsProblem self.now }
    {
        &self.scheduling
    }
}
