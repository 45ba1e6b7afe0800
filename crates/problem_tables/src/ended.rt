//! Machines and problems of a text that have ended.

ghost use Rattle.std.specs.Prelude.{◌≡◌, [], ◌∷◌, ◌++◌, None, OnOk};
ghost use Rattle.problem_tables.specs.Seen.{Refuses, ended_seen, machine_seen, problem_seen};

use crate::fault::Refusal;
use machine_data::OutOfMemory;
use problems::{File, Kind, Label, Order, Value};
use registers::Read;
use std::alloc::Global;

/// A machine of a text.
#[derive(Drop)]
pub struct TextMachine {
    pub name: Label,
    /// The names of its units.
    pub units: Vec<Label>,
    pub files: Vec<File>,
    pub file_names: Vec<Label>,
    pub kinds: Vec<Kind>,
    pub kind_names: Vec<Label>,
}

/// A problem of a text.
#[derive(Drop)]
pub struct TextProblem {
    pub name: Label,
    /// The number of its machine, from 0.
    pub machine: usize,
    /// Of each operation the number of its kind, from 0.
    pub operations: Vec<usize>,
    pub operation_names: Vec<Label>,
    pub values: Vec<Value>,
    pub value_names: Vec<Label>,
    pub reads: Vec<Read>,
    pub orders: Vec<Order>,
}

/// The machines and problems of a text that have ended, in the order of the text.
#[derive(Drop)]
pub struct Ended {
    pub machines: Vec<TextMachine>,
    pub problems: Vec<TextProblem>,
}

impl Ended {
    /// None at all.
    pub(crate) fn new(alloc: Global) -> Ended
        ensures { ended_seen result ≡ record { machines = []; problems = [] } }
    {
        Ended {
            machines: Vec::new(alloc),
            problems: Vec::new(alloc),
        }
    }

    /// Adds a machine.
    pub(crate) fn add_machine(&mut self, machine: TextMachine) -> Result<(), OutOfMemory>
        ensures { OnOk result (ended_seen self.new ≡ record (ended_seen self.old) { machines = (ended_seen self.old).machines ++ machine_seen machine ∷ [] }) }
    {
        self.machines.push(machine)?;
        Ok(())
    }

    /// Adds a problem.
    pub(crate) fn add_problem(&mut self, problem: TextProblem) -> Result<(), Refusal>
        ensures fault { Refuses result None }
        ensures added { OnOk result (ended_seen self.new ≡ record (ended_seen self.old) { problems = (ended_seen self.old).problems ++ problem_seen problem ∷ [] }) }
    {
        self.problems.push(problem)?;
        Ok(())
    }
}
