//! The solutions of a text: those that have ended, and how the one under way begins.

ghost use Rattle.std.specs.Prelude.{◌≡◌, ◌++◌, ℕ, List, [], ◌∷◌, length, false, true, None, Some, IfErr, OnOk, is_some};
ghost use Rattle.solution_reader.specs.Data.{has_name};
ghost use Rattle.solution_reader.specs.Sofar.{solution_with};
ghost use Rattle.solution_reader.specs.declared.fault.Refusal.TheVariants.{Memory};
ghost use Rattle.solution_reader.specs.inner.Seen.{head_seen};
ghost use Rattle.solution_reader.specs.inner.Steps.{begun_names};

use crate::fault::Refusal;
use crate::file::{Entry, SolutionFile};
use crate::numbers::add_number;
use crate::ops::Ops;
use crate::rows::Head;
use crate::values::Values;
use std::alloc::Global;
use std::collections::BTreeMap;
use std::marker::Model;
use std::mem;

/// The solutions that have ended, in the order of the text, and the head of the one under way.
#[derive(Drop)]
pub(crate) struct Begun<'a> {
    ended: Vec<Entry<'a>>,
    head: Option<Head<'a>>,
    /// Of all of them.
    numbers: BTreeMap<&'a [u8], usize>,
}

impl<'a> Model for Begun<'a> {
    ghost use Rattle.std.specs.Prelude.{option_map};
    ghost use Rattle.solution_reader.specs.inner.Numbered.{AreNumbers};
    ghost use Rattle.solution_reader.specs.inner.Seen.{head_seen};
    ghost use Rattle.solution_reader.specs.inner.Steps.{BegunData, begun_names};

    ghost Value = { BegunData };

    ghost view = { λ b. record { ended = b.ended.items; head = option_map head_seen b.head } };

    ghost invariant = { λ b. AreNumbers (begun_names (record { ended = b.ended.items; head = option_map head_seen b.head })) b.numbers };
}

impl<'a> Begun<'a> {
    /// None. Nothing is allocated.
    pub(crate) fn new(alloc: Global) -> Begun<'a>
        ensures { result ≡ record { ended = []; head = None } }
    {
        Begun {
            ended: Vec::new(alloc),
            head: None,
            numbers: BTreeMap::new(alloc),
        }
    }

    /// A solution is under way.
    pub(crate) fn is_inside(&self) -> bool
        ensures { result ≡ is_some self.now.head }
    {
        self.head.is_some()
    }

    /// How many have ended.
    pub(crate) fn len(&self) -> usize
        ensures { result ≡ length self.now.ended }
    {
        self.ended.len()
    }

    /// Whether one of them has this name.
    pub(crate) fn has(&self, name: &[u8]) -> bool
        ensures { result ≡ has_name (begun_names self.now) name.now }
    {
        self.numbers.contains_key(name)
    }

    /// Begins a solution of a new name.
    pub(crate) fn open(&mut self, head: Head<'a>) -> Result<(), Refusal>
        requires outside { self.old.head ≡ None }
        requires absent { has_name (begun_names self.old) head.name.bytes.now ≡ false }
        ensures fault { IfErr result (λ refusal. refusal ≡ Memory) }
        ensures opened { OnOk result (self.new ≡ record { ended = self.old.ended; head = Some (head_seen head.entry) }) }
    {
        let number = self.ended.len();
        add_number(&mut self.numbers, head.name.bytes, number)?;
        self.head = Some(head);
        Ok(())
    }

    /// Adds the solution under way, which has ended.
    fn add(&mut self, solution: Entry<'a>) -> Result<(), Refusal>
        requires { self.old.head ≡ Some solution.head }
        ensures fault { IfErr result (λ refusal. refusal ≡ Memory) }
        ensures added { OnOk result (self.new ≡ record { ended = self.old.ended ++ solution.entry ∷ []; head = None }) }
    {
        self.ended.push(solution)?;
        self.head = None;
        Ok(())
    }

    /// Ends the solution under way with these lines, and takes them out.
    pub(crate) fn close(
        &mut self,
        alloc: Global,
        ops: &mut Ops<'a>,
        values: &mut Values<'a>,
    ) -> Result<(), Refusal>
        requires { is_some self.old.head ≡ true }
        ensures fault { IfErr result (λ refusal. refusal ≡ Memory) }
        ensures begun { OnOk result (self.new ≡ record { ended = self.old.ended ++ solution_with ops.old values.old self.old.head; head = None }) }
        ensures ops { OnOk result (ops.new ≡ []) }
        ensures values { OnOk result (values.new ≡ []) }
    {
        match self.head {
            Some(head) => self.add(Entry {
                head,
                ops: ops.take(alloc),
                values: values.take(alloc),
            }),
            None => Ok(()),
        }
    }

    /// Takes out the solutions that have ended, where none is under way.
    pub(crate) fn finish(&mut self, alloc: Global) -> SolutionFile<'a>
        requires { self.old.head ≡ None }
        ensures { result ≡ self.old.ended }
    {
        let begun = mem::replace(self, Begun::new(alloc));
        SolutionFile::of(begun.ended, begun.numbers)
    }
}
