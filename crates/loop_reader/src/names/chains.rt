//! Names in chains, one for each value of a hash.

ghost use Rattle.std.specs.Prelude.{◌≡◌, ◌<◌, ℕ, List, [], length, if◌then◌else◌, IfOk, OnOk, None, Some};
ghost use Rattle.std.specs.Option.{option_or};
ghost use Rattle.machine_data.specs.Opcodes.{same_word};
ghost use Rattle.loop_reader.specs.inner.Chains.{chain_of, chained_as, IsLatest, IsLinked};

use crate::names::index::Declared;
use machine_data::OutOfMemory;
use std::alloc::Global;
use std::hash::{FoldHasher, Hasher};
use std::marker::Model;

/// A name and what it stands for.
#[derive(Clone, Copy)]
pub(crate) struct Link<'a> {
    name: &'a [u8],
    what: Declared,
    /// The number of its chain.
    chain: usize,
    /// How many names there were when the one before it came into its chain, and 0 where there is none.
    before: usize,
    /// How many names came into its chain before it.
    depth: usize,
}

/// How many chains there are. The names of a loop are 224 at most, and the loops of a text 1,024.
const CHAINS: usize = 512;

/// How many names a chain may have, so that no text makes a look-up long.
const MOST: usize = 8;

/// Names, each with what it stands for, in short chains. Contracts see the list of them.
#[derive(Drop)]
pub(crate) struct Chains<'a> {
    links: Vec<Link<'a>>,
    /// For each chain, how many names there were when its latest had come, and 0 where it has none.
    latest: Vec<usize>,
}

impl<'a> Model for Chains<'a> {
    ghost use Rattle.std.specs.Prelude.{List};
    ghost use Rattle.loop_reader.specs.declared.names.chains.Link.{Link};
    ghost use Rattle.loop_reader.specs.inner.Chains.{AreChains};

    ghost Value = { List Link };

    ghost view = { λ t. t.links.items };

    ghost invariant = { λ t. AreChains t.links.items t.latest.items };
}

/// The chain of a name.
#[inline(always)]
#[tactic(auto, unfolding(crate::specs::inner::Chains::chain_of))]
pub(crate) fn chain_of(name: &[u8]) -> usize
    ensures value { result ≡ chain_of name.now }
    ensures bound { result < 512 }
{
    let mut hasher = FoldHasher::default();
    hasher.write(name);
    hasher.finish() as usize % CHAINS
}

/// What a name stands for, by the names of its chain from the latest on.
#[inline(always)]
fn find(links: &[Link<'_>], latest: usize, name: &[u8]) -> Option<Declared>
    requires links { IsLinked links.now }
    requires latest { IsLatest links.now (length links.now) (chain_of name.now) latest }
    ensures { result ≡ chained_as links.now name.now }
{
    let mut at = latest;
    while at > 0 {
        let link = &links[at - 1];
        if link.name == name {
            return Some(link.what);
        }
        at = link.before;
    }
    None
}

impl<'a> Chains<'a> {
    /// No names.
    pub(crate) fn new(alloc: Global) -> Result<Chains<'a>, OutOfMemory>
        ensures { IfOk result (λ chains. chains ≡ []) }
    {
        let mut latest = Vec::new(alloc);
        latest.resize(CHAINS, 0)?;
        Ok(Chains {
            links: Vec::new(alloc),
            latest,
        })
    }

    /// Forgets all names.
    pub(crate) fn clear(&mut self)
        ensures { self.new ≡ [] }
    {
        for link in &self.links {
            self.latest[link.chain] = 0;
        }
        self.links.clear();
    }

    /// What a name of this chain stands for.
    #[inline(always)]
    pub(crate) fn get(&self, chain: usize, name: &[u8]) -> Option<Declared>
        requires { chain ≡ chain_of name.now }
        ensures { result ≡ chained_as self.now name.now }
    {
        find(self.links.as_slice(), self.latest[chain], name)
    }

    /// One more name may come into this chain. No answer is wrong: it only decides how long a look-up takes.
    pub(crate) fn has_room(&self, chain: usize) -> bool
        requires { chain < 512 }
    {
        let latest = self.latest[chain];
        latest == 0 || self.links[latest - 1].depth < MOST - 1
    }

    /// Adds a name of this chain that is not there.
    pub(crate) fn add(
        &mut self,
        chain: usize,
        name: &'a [u8],
        what: Declared,
    ) -> Result<(), OutOfMemory>
        requires chain { chain ≡ chain_of name.now }
        requires absent { chained_as self.old name.now ≡ None }
        ensures { OnOk result ((q : List ℕ) → chained_as self.new q ≡ option_or (chained_as self.old q) (if same_word q name.now then Some what else None)) }
    {
        let before = self.latest[chain];
        let depth = if before == 0 {
            0
        } else {
            self.links[before - 1].depth.saturating_add(1)
        };
        self.links.push(Link {
            name,
            what,
            chain,
            before,
            depth,
        })?;
        self.latest[chain] = self.links.len();
        Ok(())
    }
}
