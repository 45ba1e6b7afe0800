//! The drafts of a file's problems, one after another.

ghost use Rattle.std.specs.Prelude.{◌≡◌, ◌<◌, length, None, IfOk};
ghost use Rattle.problems.specs.Faults.{first_fault_of};
ghost use Rattle.problem_reader.specs.Files.{machine_at, problem_at, IsDraftOf};

use crate::file::ProblemFile;
use machine_data::OutOfMemory;
use problems::Draft;
use std::alloc::Global;
use std::marker::Model;

/// A draft that was given back.
#[derive(Drop)]
struct Kept {
    /// The number of its machine.
    machine: usize,
    draft: Draft,
}

/// Makes the drafts of a file's problems one after another. What the next one shares with one that was given back, since both are
/// on the same machine, is not copied again. Contracts see the file.
#[derive(Drop)]
pub struct KeptDrafts<'a> {
    file: &'a ProblemFile,
    kept: Option<Kept>,
}

impl<'a> Model for KeptDrafts<'a> {
    ghost use Rattle.std.specs.Prelude.{IfSome};
    ghost use Rattle.problem_tables.specs.Data.{FileData};
    ghost use Rattle.problem_reader.specs.Files.{machine_at};
    ghost use Rattle.problem_reader.specs.inner.OnMachines.{IsOnMachine};
    ghost use Rattle.problem_reader.specs.declared.kept.Kept.{Kept};

    ghost Value = { FileData };

    ghost view = { λ d. d.file.now };

    ghost invariant = { λ d. IfSome d.kept (λ (k : Kept). IsOnMachine (machine_at d.file.now k.machine) k.draft) };
}

impl<'a> KeptDrafts<'a> {
    /// No draft of this file has been made. Nothing is allocated.
    pub fn of(file: &'a ProblemFile) -> KeptDrafts<'a>
        ensures { result ≡ file.now }
    {
        KeptDrafts { file, kept: None }
    }

    /// The draft of the problem with a number, from 0, as [`ProblemFile::draft`] makes it.
    ///
    /// # Errors
    /// Memory ran out.
    pub fn draft(&mut self, alloc: Global, number: usize) -> Result<Draft, OutOfMemory>
        requires { number < length self.old.problems }
        ensures same { self.new ≡ self.old }
        ensures exact { IfOk result (IsDraftOf (machine_at self.old (problem_at self.old number).machine) (problem_at self.old number)) }
        ensures faultless { IfOk result (λ draft. first_fault_of draft ≡ None) }
    {
        match self.kept.take() {
            Some(kept) if kept.machine == self.file.machine(number) => {
                self.file.redraft(number, kept.draft)
            }
            _ => self.file.draft(alloc, number),
        }
    }

    /// Takes back the draft of the problem with a number, from 0, so that the next draft can be made of it.
    pub fn give_back(&mut self, number: usize, draft: Draft)
        requires there { number < length self.old.problems }
        requires draft { IsDraftOf (machine_at self.old (problem_at self.old number).machine) (problem_at self.old number) draft }
        ensures same { self.new ≡ self.old }
    {
        let machine = self.file.machine(number);
        self.kept = Some(Kept { machine, draft });
    }
}
