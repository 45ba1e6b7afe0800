//! A table of names.

ghost use Rattle.std.specs.Prelude.{◌≡◌, ℕ, List, if◌then◌else◌, IfOk, OnOk, None, Some, is_none, is_some};
ghost use Rattle.std.specs.BTreeMap.{get_by};
ghost use Rattle.std.specs.Cmp.Lexicographic.{slice_cmp};
ghost use Rattle.std.specs.Option.{option_or};
ghost use Rattle.std.specs.Ordering.{nat_cmp};
ghost use Rattle.machine_data.specs.Opcodes.{same_word};
ghost use Rattle.loop_reader.specs.inner.Known.{known_as};
ghost use Rattle.loop_reader.specs.inner.Chains.{chain_of};

use crate::names::chains::{Chains, chain_of};
use crate::names::index::Declared;
use machine_data::OutOfMemory;
use std::alloc::Global;
use std::collections::BTreeMap;

/// Names, each with what it stands for. The chains are quicker, but names may be picked so that all of
/// them are of one chain, so those that find no room in theirs stand in a map by their order.
#[derive(Drop)]
pub(crate) struct Names<'a> {
    chains: Chains<'a>,
    others: BTreeMap<&'a [u8], Declared>,
}

/// Adds a name, unless it is there already. The result is whether it was added.
fn add_other<'a>(
    others: &mut BTreeMap<&'a [u8], Declared>,
    name: &'a [u8],
    what: Declared,
) -> Result<bool, OutOfMemory>
    ensures names { OnOk result ((q : List ℕ) → get_by (λ k. slice_cmp nat_cmp q k.now) others.new
        ≡ option_or (get_by (λ k. slice_cmp nat_cmp q k.now) others.old) (if same_word q name.now then Some what else None)) }
    ensures added { IfOk result (λ added. added ≡ is_none (get_by (λ k. slice_cmp nat_cmp name.now k.now) others.old)) }
{
    match others.insert(name, what)? {
        None => Ok(true),
        Some(first) => {
            others.insert(name, first)?;
            Ok(false)
        }
    }
}

/// A name is there. Mostly none is.
#[inline(always)]
fn is_there<'a>(others: &BTreeMap<&'a [u8], Declared>, name: &[u8]) -> bool
    ensures { result ≡ is_some (get_by (λ k. slice_cmp nat_cmp name.now k.now) others.now) }
{
    !others.is_empty() && others.get(name).is_some()
}

impl<'a> Names<'a> {
    /// A table with no names.
    pub(crate) fn new(alloc: Global) -> Result<Names<'a>, OutOfMemory>
        ensures { IfOk result (λ names. (q : List ℕ) → known_as names q ≡ None) }
    {
        Ok(Names {
            chains: Chains::new(alloc)?,
            others: BTreeMap::new(alloc),
        })
    }

    /// Forgets all names. The table's room is used again.
    pub(crate) fn clear(&mut self)
        ensures { (q : List ℕ) → known_as self.new q ≡ None }
    {
        self.chains.clear();
        self.others.clear();
    }

    /// What a name stands for.
    #[inline(always)]
    pub(crate) fn get(&self, name: &[u8]) -> Option<Declared>
        ensures { result ≡ known_as self.now name.now }
    {
        match self.chains.get(chain_of(name), name) {
            Some(what) => Some(what),
            None => self.others.get(name).copied(),
        }
    }

    /// Adds a name, unless it is there already. The result is whether it was added.
    #[inline(always)]
    pub(crate) fn add(&mut self, name: &'a [u8], what: Declared) -> Result<bool, OutOfMemory>
        ensures names { OnOk result ((q : List ℕ) → known_as self.new q ≡ option_or (known_as self.old q) (if same_word q name.now then Some what else None)) }
        ensures added { IfOk result (λ added. added ≡ is_none (known_as self.old name.now)) }
    {
        let chain = chain_of(name);
        if self.chains.get(chain, name).is_some() {
            return Ok(false);
        }
        if !self.chains.has_room(chain) {
            return add_other(&mut self.others, name, what);
        }
        if is_there(&self.others, name) {
            return Ok(false);
        }
        self.chains.add(chain, name, what)?;
        Ok(true)
    }
}
