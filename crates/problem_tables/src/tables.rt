//! What the lines so far have said, and the next one.

ghost use Rattle.std.specs.Prelude.{◌≡◌, ◌<◌, nat_lt, length, IfNone, IfOk, OnOk, [], ◌∷◌, true, false};
ghost use Rattle.problem_lines.specs.Parsed.{form_seen, line_seen};
ghost use Rattle.problem_lines.specs.Seen.{word_seen};
ghost use Rattle.problems.specs.declared.limits.TheConstants.{MAX_PROBLEMS};
ghost use Rattle.problem_tables.specs.Faults.{first_of, new, room_at, unless};
ghost use Rattle.problem_tables.specs.Names.{has_name};
ghost use Rattle.problem_tables.specs.Seen.{ended_seen, tables_seen, Refuses};
ghost use Rattle.problem_tables.specs.Tables.{form_fault, has_machine, line_fault, may_stand, no_tables, with_form, with_machine_ended};
ghost use Rattle.problem_lines.specs.Forms.{MachineLine, ProblemLine, EndLine};
ghost use Rattle.problem_faults.specs.declared.refused_problems.Part.TheVariants as part;
ghost use Rattle.problem_faults.specs.declared.refused_problems.Wrong.TheVariants as wrong;
ghost use Rattle.problem_tables.specs.inner.Spots.{on_spot};

use crate::ended::Ended;
use crate::fault::{Refusal, Told};
use crate::judging::{Spot, new_fault};
use crate::lines::machine::{MachineTables, take_units};
use crate::lines::orders::{EdgeWords, ReadWords};
use crate::lines::problem::{ProblemTables, ValueWords};
use crate::names::Names;
use crate::opened::Opened;
use machine_data::OutOfMemory;
use problem_faults::refused_problems::{Part, Wrong};
use problem_lines::{Form, Line, Word};
use problems::limits::MAX_PROBLEMS;
use std::alloc::Global;
use std::mem;

/// What the lines of a text have said so far. The lines of the problem under way and those of its machine look names up
/// in tables; machines and problems that have ended are kept as they are handed out.
#[derive(Drop)]
pub struct Tables<'a> {
    alloc: Global,
    machines: Names<'a>,
    problems: Opened<'a>,
    machine: MachineTables<'a>,
    problem: ProblemTables<'a>,
    /// The machine under way has a problem.
    served: bool,
    ended: Ended,
}

impl<'a> Tables<'a> {
    /// Before the first line. Nothing is allocated.
    pub fn new(alloc: Global) -> Tables<'a>
        ensures { tables_seen result ≡ no_tables }
    {
        Tables {
            alloc,
            machines: Names::new(alloc),
            problems: Opened::new(alloc),
            machine: MachineTables::new(alloc),
            problem: ProblemTables::new(alloc),
            served: false,
            ended: Ended::new(alloc),
        }
    }

    /// Whether a problem is under way.
    pub fn is_inside(&self) -> bool
        ensures { result ≡ (tables_seen self.now).inside }
    {
        self.problems.inside
    }

    /// Whether there is a machine under way.
    fn has_machine(&self) -> bool
        ensures { result ≡ has_machine (tables_seen self.now) }
    {
        self.machines.len() > 0
    }

    /// Whether a line may stand here.
    fn may_stand(&self, form: &Form<'a>) -> bool
        ensures { result ≡ may_stand (tables_seen self.now) (form_seen form.now) }
    {
        match form {
            Form::Machine(_) => !self.problems.inside,
            Form::Problem(_) => self.has_machine() && !self.problems.inside,
            Form::Units(_) | Form::File(..) | Form::Kind(..) => self.has_machine() && !self.served,
            _ => self.problems.inside,
        }
    }

    /// Ends the machine under way, if there is one.
    fn end_machine(&mut self) -> Result<(), OutOfMemory>
        ensures { OnOk result (tables_seen self.new ≡ with_machine_ended (tables_seen self.old)) }
    {
        if !self.has_machine() {
            return Ok(());
        }
        let name = self.machines.last();
        self.ended.add_machine(self.machine.take(self.alloc, name))
    }

    /// Takes a `machine` line in.
    fn take_machine(&mut self, name: Word<'a>) -> Result<(), Refusal>
        ensures fault { Refuses result (new (tables_seen self.old).machines (word_seen name.entry)) }
        ensures taken { OnOk result (tables_seen self.new ≡ with_form (tables_seen self.old) (MachineLine (word_seen name.entry))) }
    {
        if let Some(told) = new_fault(&self.machines, name) {
            return Err(Refusal::Fault(told));
        }
        self.end_machine()?;
        self.served = false;
        self.machines.add(name)
    }

    /// The fault of a `problem` line.
    fn problem_fault(&self, at: Spot, name: Word<'a>) -> Option<Told>
        ensures value { result ≡ first_of (room_at (on_spot at) (length self.now.problems.names) MAX_PROBLEMS part.Problems ∷ new self.now.problems.names (word_seen name.entry) ∷ []) }
        ensures absent { IfNone result (has_name self.now.problems.names name.entry.bytes.now ≡ false) }
    {
        if let Some(told) = at.room(self.problems.names.len(), MAX_PROBLEMS, Part::Problems) {
            return Some(told);
        }
        new_fault(&self.problems.names, name)
    }

    /// Takes a `problem` line in.
    fn take_problem(&mut self, at: Spot, name: Word<'a>) -> Result<(), Refusal>
        requires { self.old.problems.inside ≡ false }
        ensures fault { Refuses result (form_fault (tables_seen self.old) (on_spot at) (ProblemLine (word_seen name.entry))) }
        ensures taken { OnOk result (tables_seen self.new ≡ with_form (tables_seen self.old) (ProblemLine (word_seen name.entry))) }
    {
        if let Some(told) = self.problem_fault(at, name) {
            return Err(Refusal::Fault(told));
        }
        self.served = true;
        self.problems.open(name)
    }

    /// Takes an `end` line in.
    fn take_end(&mut self, at: Spot) -> Result<(), Refusal>
        requires { self.old.problems.inside ≡ true }
        ensures fault { Refuses result (form_fault (tables_seen self.old) (on_spot at) EndLine) }
        ensures taken { OnOk result (tables_seen self.new ≡ with_form (tables_seen self.old) EndLine) }
    {
        if self.problem.operation_names.len() == 0 {
            return Err(Refusal::Fault(at.told(Wrong::Count(Part::Operations))));
        }
        let name = self.problems.close();
        let machine = self.machines.len().saturating_sub(1);
        let problem = self.problem.take(self.alloc, name, machine);
        self.ended.add_problem(problem)
    }

    /// Takes in what a line says that may stand here.
    fn take_form(&mut self, at: Spot, form: Form<'a>) -> Result<(), Refusal>
        requires { may_stand (tables_seen self.old) (form_seen form) ≡ true }
        ensures fault { Refuses result (form_fault (tables_seen self.old) (on_spot at) (form_seen form.entry)) }
        ensures taken { OnOk result (tables_seen self.new ≡ with_form (tables_seen self.old) (form_seen form.entry)) }
    {
        match form {
            Form::Machine(name) => self.take_machine(name),
            Form::Units(names) => take_units(&mut self.machine.units, names),
            Form::File(name, storage) => self.machine.take_file(at, name, storage),
            Form::Kind(name, latency, alternatives) => {
                let alloc = self.alloc;
                self.machine
                    .take_kind(alloc, at, name, latency, alternatives)
            }
            Form::Problem(name) => self.take_problem(at, name),
            Form::Op(name, kind) => self.problem.take_op(&self.machine, at, name, kind),
            Form::Value(name, maker, lands, file, out) => {
                let words = ValueWords {
                    name,
                    maker,
                    lands,
                    file,
                    out,
                };
                self.problem.take_value(&self.machine, at, words)
            }
            Form::Read(reader, value, distance, offset) => self.problem.take_read(
                at,
                ReadWords {
                    reader,
                    value,
                    distance,
                    offset,
                },
            ),
            Form::Edge(from, to, delay, distance) => self.problem.take_edge(
                at,
                EdgeWords {
                    from,
                    to,
                    delay,
                    distance,
                },
            ),
            Form::End => self.take_end(at),
        }
    }

    /// Takes in what a line says. After a fault, and where memory ran out, nothing is said of the tables.
    ///
    /// # Errors
    /// The line's first fault; or memory ran out, which says nothing of the line.
    pub fn take_line(&mut self, line: Line<'a>) -> Result<(), Refusal>
        ensures fault { Refuses result (line_fault (tables_seen self.old) (line_seen line.entry)) }
        ensures taken { OnOk result (tables_seen self.new ≡ with_form (tables_seen self.old) (line_seen line.entry).form) }
    {
        let at = Spot::of_line(&line);
        if !self.may_stand(&line.form) {
            return Err(Refusal::Fault(at.told(Wrong::Place)));
        }
        self.take_form(at, line.form)
    }

    /// Ends the machine under way, and takes out all that has ended.
    fn take_ended(&mut self) -> Result<Ended, OutOfMemory>
        ensures { IfOk result (λ ended. ended_seen ended ≡ (with_machine_ended (tables_seen self.old)).ended) }
    {
        self.end_machine()?;
        Ok(mem::replace(&mut self.ended, Ended::new(self.alloc)))
    }

    /// All machines and problems that have ended, and the machine under way. A problem under way is left out.
    ///
    /// # Errors
    /// Memory ran out.
    pub fn finish(mut self) -> Result<Ended, OutOfMemory>
        ensures { IfOk result (λ ended. ended_seen ended ≡ (with_machine_ended (tables_seen self.entry)).ended) }
    {
        let ended = self.take_ended();
        drop(self);
        ended
    }
}
