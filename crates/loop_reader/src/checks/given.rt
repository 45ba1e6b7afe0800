//! What the lines of a block give to its values.

ghost use Rattle.std.specs.Prelude.{◌≡◌, ◌*◌, ◌+◌, ◌-◌, ◌<◌, ◌≤◌, ◌^◌, ℕ, OnOk, IsTrue, None, Some, false, is_some, length, replicate, slice_set};
ghost use Rattle.loop_reader.specs.inner.Checks.{covers, slot};

use machine_data::OutOfMemory;
use machine_data::limits::MAX_DISTANCE;
use std::alloc::Global;
use std::marker::Model;

/// How many initial values a value may have.
const PLACES: usize = MAX_DISTANCE as usize;

/// So many flags, and none of them set.
fn unmark(flags: &mut Vec<bool>, count: usize) -> Result<(), OutOfMemory>
    ensures items { OnOk result (flags.new.items ≡ replicate count false) }
    ensures none { flags.new.items ≡ replicate (length flags.new.items) false }
    ensures most { length flags.new.items ≤ count }
{
    flags.clear();
    flags.resize(count, false)
}

/// Initial values in rows of 16 places, of which few are given. Contracts see the list of all places.
#[derive(Drop)]
pub(crate) struct Table {
    taken: Vec<bool>,
    /// At least as many as in `taken`. A place that is not taken still holds what an earlier block
    /// left there.
    values: Vec<i64>,
    /// For each row whether one of its places is taken.
    rows: Vec<bool>,
}

impl Model for Table {
    ghost use Rattle.std.specs.Prelude.{ℤ, List, Option};
    ghost use Rattle.loop_reader.specs.inner.Checks.{values_taken, IsTable};

    ghost Value = { List (Option ℤ) };

    ghost view = { λ t. values_taken t.taken.items t.values.items };

    ghost invariant = { λ t. IsTable t.taken.items t.values.items t.rows.items };
}

impl Table {
    fn new(alloc: Global) -> Table {
        Table {
            taken: Vec::new(alloc),
            values: Vec::new(alloc),
            rows: Vec::new(alloc),
        }
    }

    /// So many rows, and no value in any of them.
    #[tactic(auto, using(crate::proofs::faults::Taken::none_taken))]
    fn reset(&mut self, rows: usize) -> Result<(), OutOfMemory>
        requires { rows < 2 ^ 40 }
        ensures { OnOk result (self.new ≡ replicate (16 * rows) None) }
    {
        self.taken.clear();
        let places = PLACES * rows;
        let room = self.values.len().max(places);
        self.values.resize(room, 0)?;
        unmark(&mut self.rows, rows)?;
        unmark(&mut self.taken, places)?;
        Ok(())
    }

    /// A row without a value.
    #[tactic(auto, using(crate::proofs::faults::Taken::length_taken))]
    pub(crate) fn is_bare(&self, row: usize) -> bool
        requires { 16 * row + 16 ≤ length self.now }
        ensures { IsTrue result → (place : ℕ) → place < 16 → slot self.now row place ≡ None }
    {
        !self.rows[row]
    }

    /// A value is given at this place of a row.
    #[tactic(auto, using(crate::proofs::faults::Taken::length_taken, crate::proofs::faults::Taken::some_taken))]
    pub(crate) fn has(&self, row: usize, place: usize) -> bool
        requires { 16 * row + place < length self.now }
        ensures { result ≡ is_some (slot self.now row place) }
    {
        self.taken[PLACES * row + place]
    }

    /// The value at this place of a row, if one is given.
    #[tactic(auto, using(crate::proofs::faults::Taken::length_taken))]
    pub(crate) fn at(&self, row: usize, place: usize) -> Option<i64>
        requires { 16 * row + place < length self.now }
        ensures { result ≡ slot self.now row place }
    {
        if self.taken[PLACES * row + place] {
            Some(self.values[PLACES * row + place])
        } else {
            None
        }
    }

    /// Gives a value at this place of a row.
    #[tactic(auto, using(crate::proofs::faults::Taken::length_taken, crate::proofs::faults::Taken::set_taken))]
    pub(crate) fn put(&mut self, row: usize, place: usize, value: i64)
        requires room { 16 * row + place < length self.old }
        requires place { place < 16 }
        ensures { self.new ≡ slice_set self.old (16 * row + place) (Some value) }
    {
        self.taken[PLACES * row + place] = true;
        self.values[PLACES * row + place] = value;
        self.rows[row] = true;
    }
}

/// The initial values of each statement's value, by number, and whether it has an `out`.
#[derive(Drop)]
pub(crate) struct Given {
    pub(crate) inits: Table,
    pub(crate) outs: Vec<bool>,
}

impl Given {
    pub(crate) fn new(alloc: Global) -> Given {
        Given {
            inits: Table::new(alloc),
            outs: Vec::new(alloc),
        }
    }

    /// Nothing is given to any of these values.
    pub(crate) fn reset(&mut self, values: usize) -> Result<(), OutOfMemory>
        requires { values < 2 ^ 40 }
        ensures inits { OnOk result (self.new.inits ≡ replicate (16 * values) None) }
        ensures outs { OnOk result (self.new.outs.items ≡ replicate values false) }
    {
        self.inits.reset(values)?;
        unmark(&mut self.outs, values)
    }

    /// All initial values from 1 to a distance were given.
    pub(crate) fn covers(&self, value: usize, distance: u8) -> bool
        requires below { 16 * value + 16 ≤ length self.now.inits }
        requires near { distance ≤ MAX_DISTANCE }
        ensures { result ≡ covers self.now.inits value distance }
    {
        for m in 0..distance as usize {
            if !self.inits.has(value, m) {
                return false;
            }
        }
        true
    }
}
