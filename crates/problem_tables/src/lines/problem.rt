//! The operations and values of the problem under way.

ghost use Rattle.std.specs.Prelude.{◌≡◌, IfNone, OnOk, false};
ghost use Rattle.problem_lines.specs.Seen.{word_seen};
ghost use Rattle.problem_tables.specs.Faults.{first_of};
ghost use Rattle.problem_tables.specs.Names.{has_name, index_of};
ghost use Rattle.problem_tables.specs.Seen.{machine_parts, problem_parts, problem_seen, Refuses};
ghost use Rattle.problem_tables.specs.Tables.{named_problem, no_problem, op_faults, value_faults, value_of, with_op, with_value};
ghost use Rattle.problem_tables.specs.inner.Spots.{on_spot};

use crate::ended::TextProblem;
use crate::fault::{Refusal, Told};
use crate::judging::{Spot, known_fault, new_fault, range_fault};
use crate::lines::machine::MachineTables;
use crate::names::Names;
use crate::room::push_with_room;
use machine_data::limits::{MAX_LATENCY, MAX_STATEMENTS, MAX_VALUES};
use problem_faults::refused_problems::Part;
use problem_lines::{Number, Word};
use problems::{Label, Order, Value};
use registers::Read;
use std::alloc::Global;
use std::mem;

/// What the lines of the problem under way have said.
#[derive(Drop)]
pub(crate) struct ProblemTables<'a> {
    /// Of each operation the number of its kind.
    pub(crate) operations: Vec<usize>,
    pub(crate) operation_names: Names<'a>,
    pub(crate) values: Vec<Value>,
    pub(crate) value_names: Names<'a>,
    pub(crate) reads: Vec<Read>,
    pub(crate) orders: Vec<Order>,
}

/// The words of a `value` line.
#[derive(Clone, Copy)]
pub(crate) struct ValueWords<'a> {
    pub(crate) name: Word<'a>,
    pub(crate) maker: Word<'a>,
    pub(crate) lands: Number,
    pub(crate) file: Word<'a>,
    /// Whether it is live at the end.
    pub(crate) out: bool,
}

impl<'a> ProblemTables<'a> {
    /// A problem of which nothing has been said. Nothing is allocated.
    pub(crate) fn new(alloc: Global) -> ProblemTables<'a>
        ensures { problem_parts result ≡ no_problem }
    {
        ProblemTables {
            operations: Vec::new(alloc),
            operation_names: Names::new(alloc),
            values: Vec::new(alloc),
            value_names: Names::new(alloc),
            reads: Vec::new(alloc),
            orders: Vec::new(alloc),
        }
    }

    /// Takes all out as a problem of this name on the machine with this number.
    pub(crate) fn take(&mut self, alloc: Global, name: Label, machine: usize) -> TextProblem
        ensures problem { problem_seen result ≡ named_problem name machine (problem_parts self.old) }
        ensures empty { problem_parts self.new ≡ no_problem }
    {
        TextProblem {
            name,
            machine,
            operations: mem::replace(&mut self.operations, Vec::new(alloc)),
            operation_names: self.operation_names.take(alloc),
            values: mem::replace(&mut self.values, Vec::new(alloc)),
            value_names: self.value_names.take(alloc),
            reads: mem::replace(&mut self.reads, Vec::new(alloc)),
            orders: mem::replace(&mut self.orders, Vec::new(alloc)),
        }
    }

    /// The fault of an `op` line whose kind has this number.
    fn op_fault(
        &self,
        machine: &MachineTables<'a>,
        at: Spot,
        name: Word<'a>,
        kind: Word<'a>,
        number: usize,
    ) -> Option<Told>
        requires { number ≡ index_of machine.now.kind_names kind.bytes.now }
        ensures value { result ≡ first_of (op_faults (machine_parts machine.now) (problem_parts self.now) (on_spot at) (word_seen name.entry) (word_seen kind.entry)) }
        ensures absent { IfNone result (has_name self.now.operation_names name.entry.bytes.now ≡ false) }
    {
        let count = self.operation_names.len();
        if let Some(told) = at.room(count, MAX_STATEMENTS, Part::Operations) {
            return Some(told);
        }
        if let Some(told) = new_fault(&self.operation_names, name) {
            return Some(told);
        }
        known_fault(&machine.kind_names, number, Part::Kinds, kind)
    }

    /// Takes an `op` line in.
    pub(crate) fn take_op(
        &mut self,
        machine: &MachineTables<'a>,
        at: Spot,
        name: Word<'a>,
        kind: Word<'a>,
    ) -> Result<(), Refusal>
        ensures fault { Refuses result (first_of (op_faults (machine_parts machine.now) (problem_parts self.old) (on_spot at) (word_seen name.entry) (word_seen kind.entry))) }
        ensures taken { OnOk result (problem_parts self.new ≡ with_op (machine_parts machine.now) (problem_parts self.old) (word_seen name.entry) (word_seen kind.entry)) }
    {
        let number = machine.kind_names.index(kind.bytes);
        if let Some(told) = self.op_fault(machine, at, name, kind, number) {
            return Err(Refusal::Fault(told));
        }
        self.operation_names.add(name)?;
        push_with_room(&mut self.operations, number)
    }

    /// What a `value` line says.
    fn value_of(&self, machine: &MachineTables<'a>, words: ValueWords<'a>) -> Value
        ensures { result ≡ value_of (machine_parts machine.now) (problem_parts self.now) (word_seen words.entry.maker) words.entry.lands (word_seen words.entry.file) words.entry.out }
    {
        Value {
            maker: self.operation_names.index(words.maker.bytes),
            lands: words.lands.value,
            out: words.out,
            file: machine.file_names.index(words.file.bytes),
        }
    }

    /// The fault of a `value` line that says this.
    fn value_fault(
        &self,
        machine: &MachineTables<'a>,
        at: Spot,
        words: ValueWords<'a>,
        value: Value,
    ) -> Option<Told>
        requires { value ≡ value_of (machine_parts machine.now) (problem_parts self.now) (word_seen words.maker) words.lands (word_seen words.file) words.out }
        ensures value { result ≡ first_of (value_faults (machine_parts machine.now) (problem_parts self.now) (on_spot at) (word_seen words.entry.name) (word_seen words.entry.maker) words.entry.lands (word_seen words.entry.file)) }
        ensures absent { IfNone result (has_name self.now.value_names words.entry.name.bytes.now ≡ false) }
    {
        let count = self.value_names.len();
        if let Some(told) = at.room(count, MAX_VALUES, Part::Values) {
            return Some(told);
        }
        if let Some(told) = new_fault(&self.value_names, words.name) {
            return Some(told);
        }
        let makers = &self.operation_names;
        if let Some(told) = known_fault(makers, value.maker, Part::Operations, words.maker) {
            return Some(told);
        }
        if let Some(told) = range_fault(0, u64::from(MAX_LATENCY), words.lands) {
            return Some(told);
        }
        known_fault(&machine.file_names, value.file, Part::Files, words.file)
    }

    /// Takes a `value` line in.
    pub(crate) fn take_value(
        &mut self,
        machine: &MachineTables<'a>,
        at: Spot,
        words: ValueWords<'a>,
    ) -> Result<(), Refusal>
        ensures fault { Refuses result (first_of (value_faults (machine_parts machine.now) (problem_parts self.old) (on_spot at) (word_seen words.entry.name) (word_seen words.entry.maker) words.entry.lands (word_seen words.entry.file))) }
        ensures taken { OnOk result (problem_parts self.new ≡ with_value (problem_parts self.old) (word_seen words.entry.name)
            (value_of (machine_parts machine.now) (problem_parts self.old) (word_seen words.entry.maker) words.entry.lands (word_seen words.entry.file) words.entry.out)) }
    {
        let value = self.value_of(machine, words);
        if let Some(told) = self.value_fault(machine, at, words, value) {
            return Err(Refusal::Fault(told));
        }
        self.value_names.add(words.name)?;
        push_with_room(&mut self.values, value)
    }
}
