//! The solutions of a text.

ghost use Rattle.std.specs.Prelude.{◌≡◌, ◌<◌, length, IfSome};
ghost use Rattle.problem_lines.specs.Seen.{word_seen};
ghost use Rattle.solution_reader.specs.Data.{number_of_name, solution_names};
ghost use Rattle.solution_reader.specs.Resolved.{solution_at};
ghost use Rattle.solution_reader.specs.inner.Numbered.{AreNumbers};

use crate::ops::Ops;
use crate::rows::Head;
use crate::values::Values;
use problem_lines::Word;
use problems::Label;
use std::collections::BTreeMap;
use std::marker::Model;

/// A solution of a text.
#[derive(Drop)]
pub(crate) struct Entry<'a> {
    pub(crate) head: Head<'a>,
    pub(crate) ops: Ops<'a>,
    pub(crate) values: Values<'a>,
}

impl<'a> Model for Entry<'a> {
    ghost use Rattle.solution_reader.specs.Data.{SolutionData};
    ghost use Rattle.solution_reader.specs.inner.Seen.{head_seen};

    ghost Value = { SolutionData };

    ghost view = { λ e. record { head = head_seen e.head; ops = e.ops; values = e.values } };
}

/// The solutions of a text without a fault, in its order. Contracts see the list of them.
#[derive(Drop)]
pub struct SolutionFile<'a> {
    pub(crate) solutions: Vec<Entry<'a>>,
    numbers: BTreeMap<&'a [u8], usize>,
}

impl<'a> Model for SolutionFile<'a> {
    ghost use Rattle.std.specs.Prelude.{List};
    ghost use Rattle.solution_reader.specs.Data.{SolutionData, solution_names};
    ghost use Rattle.solution_reader.specs.inner.Numbered.{AreNumbers};

    ghost Value = { List SolutionData };

    ghost view = { λ f. f.solutions.items };

    ghost invariant = { λ f. AreNumbers (solution_names f.solutions.items) f.numbers };
}

impl<'a> SolutionFile<'a> {
    /// These solutions, with a map of their numbers.
    pub(crate) fn of(
        solutions: Vec<Entry<'a>>,
        numbers: BTreeMap<&'a [u8], usize>,
    ) -> SolutionFile<'a>
        requires { AreNumbers (solution_names solutions.items) numbers }
        ensures { result ≡ solutions.entry.items }
    {
        SolutionFile { solutions, numbers }
    }

    /// How many solutions it has.
    pub fn solutions(&self) -> usize
        ensures { result ≡ length self.now }
    {
        self.solutions.len()
    }

    /// The number, from 0, of the solution of the problem with a name, if there is one.
    pub fn find(&self, name: &Label) -> Option<usize>
        ensures value { result ≡ number_of_name (solution_names self.now) name.now }
        ensures within { IfSome result (λ number. number < length self.now) }
    {
        self.numbers.get(name.as_str().as_bytes()).copied()
    }

    /// The name of the problem that a solution is of.
    pub fn name(&self, number: usize) -> Word<'a>
        requires { number < length self.now }
        ensures { word_seen result ≡ (solution_at self.now number).head.name }
    {
        self.solutions[number].head.name
    }

    /// The number, from 1, of the line where a solution begins.
    pub fn line(&self, number: usize) -> usize
        requires { number < length self.now }
        ensures { result ≡ (solution_at self.now number).head.line }
    {
        self.solutions[number].head.line
    }

    /// The interval of a solution, in cycles. It may be any number: 2^64 - 1 where the text tells a greater one.
    pub fn ii(&self, number: usize) -> u64
        requires { number < length self.now }
        ensures { result ≡ (solution_at self.now number).head.ii }
    {
        self.solutions[number].head.ii
    }
}
