//! What is read of a text.

ghost use Rattle.std.specs.Prelude.{◌≡◌, ◌<◌, length, None, IfOk};
ghost use Rattle.problems.specs.Faults.{first_fault_of};
ghost use Rattle.problem_tables.specs.Seen.{ended_seen};
ghost use Rattle.problem_reader.specs.Files.{machine_at, problem_at, IsDraftOf, IsFile};
ghost use Rattle.problem_reader.specs.inner.OnMachines.{IsOnMachine};

use crate::copies::{draft_of, redraft_of};
use machine_data::OutOfMemory;
use problem_tables::Ended;
use problems::{Draft, Label};
use std::alloc::Global;
use std::marker::Model;

/// A text of scheduling problems without a fault: its machines, and its problems on them. Contracts see both as lists.
#[derive(Drop)]
pub struct ProblemFile {
    ended: Ended,
}

impl Model for ProblemFile {
    ghost use Rattle.problem_tables.specs.Data.{FileData};
    ghost use Rattle.problem_tables.specs.Seen.{ended_seen};
    ghost use Rattle.problem_reader.specs.Files.{IsFile};

    ghost Value = { FileData };

    ghost view = { λ f. ended_seen f.ended };

    ghost invariant = { λ f. IsFile (ended_seen f.ended) };
}

impl ProblemFile {
    /// A file of what a text has.
    pub(crate) fn of(ended: Ended) -> ProblemFile
        requires { IsFile (ended_seen ended) }
        ensures { result ≡ ended_seen ended }
    {
        ProblemFile { ended }
    }

    /// How many problems it has.
    pub fn problems(&self) -> usize
        ensures { result ≡ length self.now.problems }
    {
        self.ended.problems.len()
    }

    /// The name of the problem with a number, from 0.
    pub fn name(&self, number: usize) -> &Label
        requires { number < length self.now.problems }
        ensures { result.now ≡ (problem_at self.now number).name }
    {
        &self.ended.problems[number].name
    }

    /// The draft of the problem with a number, from 0, with all names. It has no fault.
    ///
    /// # Errors
    /// Memory ran out.
    pub fn draft(&self, alloc: Global, number: usize) -> Result<Draft, OutOfMemory>
        requires { number < length self.now.problems }
        ensures exact { IfOk result (IsDraftOf (machine_at self.now (problem_at self.now number).machine) (problem_at self.now number)) }
        ensures faultless { IfOk result (λ draft. first_fault_of draft ≡ None) }
    {
        let problem = &self.ended.problems[number];
        draft_of(alloc, &self.ended.machines[problem.machine], problem)
    }

    /// The number of the machine of the problem with a number, both from 0.
    pub(crate) fn machine(&self, number: usize) -> usize
        requires { number < length self.now.problems }
        ensures { result ≡ (problem_at self.now number).machine }
    {
        self.ended.problems[number].machine
    }

    /// The same as [`draft`](ProblemFile::draft), made of the draft of another problem on the same machine.
    pub(crate) fn redraft(&self, number: usize, draft: Draft) -> Result<Draft, OutOfMemory>
        requires there { number < length self.now.problems }
        requires machine { IsOnMachine (machine_at self.now (problem_at self.now number).machine) draft }
        ensures exact { IfOk result (IsDraftOf (machine_at self.now (problem_at self.now number).machine) (problem_at self.now number)) }
        ensures faultless { IfOk result (λ draft. first_fault_of draft ≡ None) }
    {
        redraft_of(draft, &self.ended.problems[number])
    }
}
