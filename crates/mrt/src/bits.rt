//! A modulo reservation table of bits, beside the list of placements.

ghost use Rattle.std.specs.Prelude.{◌≡◌, ◌↔◌, ◌+◌, ◌%◌, ◌^◌, ◌<◌, ◌≤◌, ℕ, length, replicate, None, IsTrue, IfOk};
ghost use Rattle.mrt.specs.Placements.{alternatives_of, IsFree, IsFirstFree, IsFirstSlot};

use crate::memory::refill;
use crate::rosters::roster::{Issue, Roster};
use crate::table::ModuloTable;
use crate::words::layout::{Search, is_met, mark};
use crate::words::masks::Masks;
use crate::words::timelines::Timelines;
use machine_data::{Alternatives, OutOfMemory};
use std::alloc::Global;
use std::marker::{Model, PhantomData};

/// A modulo reservation table that keeps, for each residue of the interval, one word whose bit `u` tells that
/// unit `u` is held, beside the list of placements. Eight consecutive times are tested at once.
pub type MaskTable = BitTable<Masks>;

/// A modulo reservation table that keeps, for each unit, a word whose bit `r` tells that the unit is held at
/// residue `r`, beside the list of placements. From an interval of 64 on the unit has a timeline instead, which
/// has a bit for each time. As many consecutive times are tested at once as a word has bits.
pub type TimelineTable = BitTable<Timelines>;

/// The table that attempts are made with where a caller has no reason to take another: of the tables here the one
/// that is searched with the fewest instructions.
pub type DefaultTable = TimelineTable;

/// A modulo reservation table of bits, which stand in words in one of two ways: [`MaskTable`] and
/// [`TimelineTable`]. Contracts see the interval, the alternatives of each operation and the set of placements.
#[derive(Drop)]
pub struct BitTable<L: Search> {
    roster: Roster,
    /// How many words belong together.
    width: usize,
    words: Vec<u64>,
    layout: PhantomData<L>,
}

impl<L: Search> Model for BitTable<L> {
    ghost use Rattle.mrt.specs.inner.Rosters.{Table};
    ghost use Rattle.mrt.specs.inner.BitTables.{IsBitTable};

    ghost Value = { Table };

    ghost view = { λ t. t.roster };

    ghost invariant = { λ t. IsBitTable t.roster (L.tells t.width t.words.items) × L.is_laid t.roster.interval t.width t.words.items };
}

impl<L: Search> BitTable<L> {
    /// The table of some operations, of which none is placed.
    fn over(alloc: Global, roster: Roster) -> Result<BitTable<L>, OutOfMemory>
        requires { roster.placed ≡ replicate (length roster.operations) None }
        ensures { IfOk result (λ table. table ≡ roster) }
    {
        let (width, count) = L::sizes(roster.ii());
        let words = vec![in alloc; 0; count]?;
        Ok(BitTable {
            roster,
            width,
            words,
            layout: PhantomData,
        })
    }

    /// Whether an operation can be issued by one of its alternatives at the times with a residue.
    fn is_free(&self, op: usize, alternative: usize, base: usize) -> bool
        requires there { op < length self.now.operations }
        requires alternative { alternative < length (alternatives_of self.now.operations op) }
        requires base { base < self.now.interval }
        ensures { (time : ℕ) → time % self.now.interval ≡ base
            → IsTrue result ↔ IsFree self.now.interval self.now.operations self.now.placed op time alternative }
    {
        let Some(slots) = self.roster.usable(op, alternative) else {
            return false;
        };
        !is_met::<L>(&self.words, self.width, slots, self.roster.ii(), base)
    }

    /// The first alternative by which an operation can be issued at the times with a residue.
    fn first_alternative(&self, op: usize, base: usize) -> Option<usize>
        requires there { op < length self.now.operations }
        requires base { base < self.now.interval }
        ensures { (time : ℕ) → time % self.now.interval ≡ base
            → IsFirstFree self.now.interval self.now.operations self.now.placed op time result }
    {
        for alternative in 0..self.roster.count(op) {
            if self.is_free(op, alternative, base) {
                return Some(alternative);
            }
        }
        None
    }

    /// After how many cycles, counted from one whose residue is `base`, an operation can first be
    /// issued by an alternative; `limit` where it cannot sooner.
    fn first_cycle(&self, op: usize, alternative: usize, base: usize, limit: u64) -> u64
        requires there { op < length self.now.operations }
        requires alternative { alternative < length (alternatives_of self.now.operations op) }
        requires base { base < self.now.interval }
        requires limit { limit ≤ self.now.interval }
        ensures few { result ≤ limit }
        ensures none_sooner { (time sooner : ℕ) → time % self.now.interval ≡ base → sooner < result
            → IsFree self.now.interval self.now.operations self.now.placed op (time + sooner) alternative → ⊥ }
        ensures free { (time : ℕ) → time % self.now.interval ≡ base → result < limit
            → IsFree self.now.interval self.now.operations self.now.placed op (time + result) alternative }
    {
        let Some(slots) = self.roster.usable(op, alternative) else {
            return limit;
        };
        L::first_unmet(
            &self.words,
            self.width,
            slots,
            self.roster.ii(),
            base,
            limit,
        )
    }

    /// [`ModuloTable::first_free`]: each alternative is searched in turn, up to
    /// the least time found so far, many times at once.
    fn first_by_alternatives(&self, op: usize, start: u64) -> Option<(u64, usize)>
        requires there { op < length self.now.operations }
        requires time { start + self.now.interval ≤ 2 ^ 32 }
        ensures { IsFirstSlot self.now.interval self.now.operations self.now.placed op start result }
    {
        let base = self.roster.residue(start);
        let cycles = self.roster.ii() as u64;
        let mut first = cycles;
        let mut best = 0;
        for alternative in 0..self.roster.count(op) {
            let cycle = self.first_cycle(op, alternative, base, first);
            if cycle < first {
                if cycle == 0 {
                    return Some((start, alternative));
                }
                first = cycle;
                best = alternative;
            }
        }
        if first < cycles {
            Some((start + first, best))
        } else {
            None
        }
    }
}

impl<L: Search> ModuloTable for BitTable<L> {
    ghost placed = { λ t. t.placed };

    ghost operations = { λ t. t.operations };

    ghost interval = { λ t. t.interval };

    fn make(
        alloc: Global,
        alternatives: &[Alternatives],
        ii: u64,
    ) -> Result<BitTable<L>, OutOfMemory> {
        let roster = Roster::new(alloc, alternatives, ii as usize)?;
        BitTable::over(alloc, roster)
    }

    fn of_kinds(
        alloc: Global,
        alternatives: &[Alternatives],
        kinds: &[usize],
        ii: u64,
    ) -> Result<BitTable<L>, OutOfMemory> {
        let roster = Roster::of_kinds(alloc, alternatives, kinds, ii as usize)?;
        BitTable::over(alloc, roster)
    }

    fn at(self, ii: u64) -> Result<BitTable<L>, OutOfMemory> {
        let BitTable {
            mut roster,
            mut words,
            ..
        } = self;
        roster.reset(ii as usize);
        let (width, count) = L::sizes(ii as usize);
        refill(&mut words, count, 0)?;
        Ok(BitTable {
            roster,
            width,
            words,
            layout: PhantomData,
        })
    }

    fn ii(&self) -> u64 {
        self.roster.ii() as u64
    }

    fn free(&self, op: usize, time: u64) -> Option<usize> {
        self.first_alternative(op, self.roster.residue(time))
    }

    fn first_free(&self, op: usize, start: u64) -> Option<(u64, usize)> {
        self.first_by_alternatives(op, start)
    }

    fn holder(&self, op: usize, alternative: usize, row: usize, time: u64) -> Option<usize> {
        let slot = self.roster.slots(op, alternative)[row];
        let ii = self.roster.ii();
        let residue = slot.residue(self.roster.residue(time), ii);
        if !L::is_held(&self.words, self.width, ii, &slot, residue) {
            return None;
        }
        self.roster.taker(&slot, residue)
    }

    fn claim(&mut self, op: usize, time: u64, alternative: usize) {
        let ii = self.roster.ii();
        let base = self.roster.residue(time);
        let slots = self.roster.slots(op, alternative);
        mark::<L>(&mut self.words, self.width, slots, ii, base, true);
        self.roster.place(
            op,
            Issue {
                time: time as u32,
                base: base as u32,
                alternative,
            },
        );
    }

    fn release(&mut self, op: usize) {
        if let Some(issue) = self.roster.issue(op) {
            let ii = self.roster.ii();
            let slots = self.roster.slots(op, issue.alternative);
            let base = issue.base as usize;
            mark::<L>(&mut self.words, self.width, slots, ii, base, false);
            self.roster.remove(op);
        }
    }
}
