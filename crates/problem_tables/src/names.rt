//! Names with their numbers.

ghost use Rattle.std.specs.Prelude.{◌≡◌, ◌<◌, ℕ, List, [], ◌∷◌, ◌++◌, length, false, None, OnOk};
ghost use Rattle.problem_tables.specs.Seen.{Refuses};
ghost use Rattle.problem_tables.specs.Names.{has_name, index_of, last_name};
ghost use Rattle.problem_tables.specs.declared.names.TheConstants.{BUCKETS};
ghost use Rattle.problem_tables.specs.inner.Numbered.{bucket_of};

use crate::fault::Refusal;
use crate::room::push_with_room;
use problem_lines::{Word, are_same};
use problems::Label;
use std::alloc::Global;
use std::collections::BTreeMap;
use std::hash::{FoldHasher, Hasher};
use std::marker::Model;
use std::mem;

/// Buckets for the names of one list.
const BUCKETS: usize = 512;

/// How many names may be found in a bucket: later ones stand in the map.
const MAX_FIRSTS: usize = 65_535;

/// Names in order, each with its number, from 0. The first name of a bucket is found there. The others stand in a map by their
/// order, so that no choice of names makes a look-up long. Contracts see the list of them.
#[derive(Drop)]
pub(crate) struct Names<'a> {
    labels: Vec<Label>,
    /// Of each bucket one more than the number of its first name, or 0.
    firsts: [u16; BUCKETS],
    others: BTreeMap<&'a [u8], usize>,
}

impl<'a> Model for Names<'a> {
    ghost use Rattle.std.specs.Prelude.{ℕ, List};
    ghost use Rattle.problem_tables.specs.inner.Numbered.{AreNumbered, number_in};

    ghost Value = { List (List ℕ) };

    ghost view = { λ n. n.labels.items };

    ghost invariant = { λ n. AreNumbered n.labels.items n.firsts (number_in n.others) };
}

/// The bucket of a name.
#[inline]
#[tactic(auto, unfolding(crate::specs::inner::Numbered::bucket_of))]
fn bucket_of(name: &[u8]) -> usize
    ensures value { result ≡ bucket_of name.now }
    ensures bound { result < BUCKETS }
{
    let mut hasher = FoldHasher::default();
    hasher.write(name);
    hasher.finish() as usize % BUCKETS
}

impl<'a> Names<'a> {
    /// No names. Nothing is allocated.
    pub(crate) fn new(alloc: Global) -> Names<'a>
        ensures { result ≡ [] }
    {
        Names {
            labels: Vec::new(alloc),
            firsts: [0; BUCKETS],
            others: BTreeMap::new(alloc),
        }
    }

    /// How many names there are.
    pub(crate) fn len(&self) -> usize
        ensures { result ≡ length self.now }
    {
        self.labels.len()
    }

    /// Whether a name is there.
    pub(crate) fn has(&self, name: &[u8]) -> bool
        ensures { result ≡ has_name self.now name.now }
    {
        self.index(name) < self.labels.len()
    }

    /// The number of a name; how many names there are where it is none of them.
    pub(crate) fn index(&self, name: &[u8]) -> usize
        ensures { result ≡ index_of self.now name.now }
    {
        let first = usize::from(self.firsts[bucket_of(name)]);
        if first > 0 && are_same(self.labels[first - 1].as_str().as_bytes(), name) {
            return first - 1;
        }
        match self.others.get(name) {
            Some(number) => *number,
            None => self.labels.len(),
        }
    }

    /// The last name.
    pub(crate) fn last(&self) -> Label
        requires { 0 < length self.now }
        ensures { result ≡ last_name self.now }
    {
        self.labels[self.labels.len() - 1].copied()
    }

    /// Adds a name that is not there. Where memory runs out, all is as before.
    pub(crate) fn add(&mut self, name: Word<'a>) -> Result<(), Refusal>
        requires { has_name self.old name.bytes.now ≡ false }
        ensures fault { Refuses result None }
        ensures added { OnOk result (self.new ≡ self.old ++ name.entry.bytes.now ∷ []) }
    {
        let bucket = bucket_of(name.bytes);
        let number = self.labels.len();
        push_with_room(&mut self.labels, name.label())?;
        if self.firsts[bucket] == 0 && number < MAX_FIRSTS {
            self.firsts[bucket] = number as u16 + 1;
            return Ok(());
        }
        match self.others.insert(name.bytes, number) {
            Ok(_) => Ok(()),
            Err(failed) => {
                self.labels.pop();
                Err(Refusal::from(failed))
            }
        }
    }

    /// Takes all names out.
    pub(crate) fn take(&mut self, alloc: Global) -> Vec<Label>
        ensures names { result.items ≡ self.old }
        ensures empty { self.new ≡ [] }
    {
        self.firsts = [0; BUCKETS];
        self.others.clear();
        mem::replace(&mut self.labels, Vec::new(alloc))
    }
}
