//! What the lines so far have said, and the next one.

ghost use Rattle.std.specs.Prelude.{◌≡◌, ◌∷◌, [], true, false, ℕ, List, length, is_some, IfNone, OnOk, None};
ghost use Rattle.problem_lines.specs.Seen.{word_seen};
ghost use Rattle.problem_lines.specs.SolutionForms.{SolutionBegins, OpTime as OpTold, ValueNumber as ValueTold, SolutionEnds};
ghost use Rattle.problem_lines.specs.SolutionParsed.{solution_form_seen, solution_line_seen};
ghost use Rattle.solution_reader.specs.Data.{has_name, op_names, value_names, solution_names};
ghost use Rattle.solution_reader.specs.Faults.{one_more};
ghost use Rattle.problem_faults.specs.declared.refused_solutions.Part.TheVariants as part;
ghost use Rattle.solution_reader.specs.inner.Taken.{on_spot, sofar_seen, Refuses};
ghost use Rattle.solution_reader.specs.inner.Steps.{may_stand, nothing, say_fault, step_fault, with_form};

use crate::begun::Begun;
use crate::fault::{Refusal, Told};
use crate::file::SolutionFile;
use crate::ops::Ops;
use crate::rows::{Head, OpTime, ValueNumber};
use crate::spot::Spot;
use crate::values::Values;
use machine_data::limits::{MAX_STATEMENTS, MAX_VALUES};
use problem_faults::refused_solutions::{Part, Wrong};
use problem_lines::{Number, SolutionForm, SolutionLine, Word};
use problems::limits::MAX_PROBLEMS;
use std::alloc::Global;

/// What the lines of a text have said so far.
#[derive(Drop)]
pub(crate) struct Sofar<'a> {
    begun: Begun<'a>,
    /// Of the solution under way.
    ops: Ops<'a>,
    values: Values<'a>,
}

/// The fault of one more name after `count` names of its part, of which there may be `most`; `there`
/// says whether the name is one of those before it.
fn name_fault(
    at: Spot,
    count: usize,
    most: usize,
    what: Part,
    there: bool,
    name: Word<'_>,
) -> Option<Told>
    ensures value { (names : List (List ℕ)) → length names ≡ count → has_name names name.entry.bytes.now ≡ there → result ≡ one_more (on_spot at) names most what (word_seen name.entry) }
    ensures new { IfNone result (there ≡ false) }
{
    match at.room(count, most, what) {
        Some(told) => Some(told),
        None => {
            if there {
                Some(Spot::of_word(name).told(Wrong::Repeated))
            } else {
                None
            }
        }
    }
}

impl<'a> Sofar<'a> {
    /// Before the first line. Nothing is allocated.
    pub(crate) fn new(alloc: Global) -> Sofar<'a>
        ensures { sofar_seen result ≡ nothing }
    {
        Sofar {
            begun: Begun::new(alloc),
            ops: Ops::new(alloc),
            values: Values::new(alloc),
        }
    }

    /// A solution is under way.
    pub(crate) fn is_inside(&self) -> bool
        ensures { result ≡ is_some (sofar_seen self.now).begun.head }
    {
        self.begun.is_inside()
    }

    /// Whether a line may stand here.
    fn may_stand(&self, form: &SolutionForm<'a>) -> bool
        ensures { result ≡ may_stand (sofar_seen self.now).begun.head (solution_form_seen form.now) }
    {
        match form {
            SolutionForm::Solution(_, _) => !self.begun.is_inside(),
            _ => self.begun.is_inside(),
        }
    }

    /// Takes in a line that begins a solution.
    fn take_begin(
        &mut self,
        at: Spot,
        number: usize,
        name: Word<'a>,
        ii: Number,
    ) -> Result<(), Refusal>
        requires { self.old.begun.head ≡ None }
        ensures fault { Refuses result (say_fault (sofar_seen self.old) (on_spot at) (SolutionBegins (word_seen name.entry) ii)) }
        ensures taken { OnOk result (sofar_seen self.new ≡ with_form (sofar_seen self.old) number (SolutionBegins (word_seen name.entry) ii)) }
    {
        let count = self.begun.len();
        let there = self.begun.has(name.bytes);
        if let Some(told) = name_fault(at, count, MAX_PROBLEMS, Part::Solutions, there, name) {
            return Err(Refusal::Fault(told));
        }
        let head = Head {
            name,
            line: number,
            ii: ii.value,
        };
        self.begun.open(head)
    }

    /// Takes in the line of an operation.
    fn take_op(
        &mut self,
        at: Spot,
        number: usize,
        name: Word<'a>,
        time: Number,
        alternative: Number,
    ) -> Result<(), Refusal>
        ensures fault { Refuses result (say_fault (sofar_seen self.old) (on_spot at) (OpTold (word_seen name.entry) time alternative)) }
        ensures taken { OnOk result (sofar_seen self.new ≡ with_form (sofar_seen self.old) number (OpTold (word_seen name.entry) time alternative)) }
    {
        let count = self.ops.len();
        let there = self.ops.has(name.bytes);
        if let Some(told) = name_fault(at, count, MAX_STATEMENTS, Part::Operations, there, name) {
            return Err(Refusal::Fault(told));
        }
        let row = OpTime {
            name,
            line: number,
            time: time.value,
            alternative: alternative.value,
        };
        self.ops.add(row)
    }

    /// Takes in the line of a value.
    fn take_value(
        &mut self,
        at: Spot,
        number: usize,
        name: Word<'a>,
        told: Number,
    ) -> Result<(), Refusal>
        ensures fault { Refuses result (say_fault (sofar_seen self.old) (on_spot at) (ValueTold (word_seen name.entry) told)) }
        ensures taken { OnOk result (sofar_seen self.new ≡ with_form (sofar_seen self.old) number (ValueTold (word_seen name.entry) told)) }
    {
        let count = self.values.len();
        let there = self.values.has(name.bytes);
        if let Some(fault) = name_fault(at, count, MAX_VALUES, Part::Values, there, name) {
            return Err(Refusal::Fault(fault));
        }
        let row = ValueNumber {
            name,
            line: number,
            number: told.value,
        };
        self.values.add(row)
    }

    /// Takes in what a line says that may stand here.
    fn take_form(
        &mut self,
        alloc: Global,
        at: Spot,
        number: usize,
        form: SolutionForm<'a>,
    ) -> Result<(), Refusal>
        requires { may_stand (sofar_seen self.old).begun.head (solution_form_seen form) ≡ true }
        ensures fault { Refuses result (say_fault (sofar_seen self.old) (on_spot at) (solution_form_seen form.entry)) }
        ensures taken { OnOk result (sofar_seen self.new ≡ with_form (sofar_seen self.old) number (solution_form_seen form.entry)) }
    {
        match form {
            SolutionForm::Solution(name, ii) => self.take_begin(at, number, name, ii),
            SolutionForm::Op(name, time, alternative) => {
                self.take_op(at, number, name, time, alternative)
            }
            SolutionForm::Value(name, told) => self.take_value(at, number, name, told),
            SolutionForm::End => self.begun.close(alloc, &mut self.ops, &mut self.values),
        }
    }

    /// Takes in the line with a number. After a fault, and where memory ran out, nothing is said of what the lines
    /// have said.
    ///
    /// # Errors
    /// The line's first fault; or memory ran out, which says nothing of the line.
    pub(crate) fn take_line(
        &mut self,
        alloc: Global,
        number: usize,
        line: SolutionLine<'a>,
    ) -> Result<(), Refusal>
        ensures fault { Refuses result (step_fault (sofar_seen self.old) (solution_line_seen line.entry)) }
        ensures taken { OnOk result (sofar_seen self.new ≡ with_form (sofar_seen self.old) number (solution_line_seen line.entry).form) }
    {
        let at = Spot::of_line(&line);
        if !self.may_stand(&line.form) {
            return Err(Refusal::Fault(at.told(Wrong::Place)));
        }
        self.take_form(alloc, at, number, line.form)
    }

    /// Takes out the solutions that have ended, where none is under way.
    pub(crate) fn finish(&mut self, alloc: Global) -> SolutionFile<'a>
        requires { (sofar_seen self.old).begun.head ≡ None }
        ensures { result ≡ (sofar_seen self.old).begun.ended }
    {
        self.begun.finish(alloc)
    }
}
