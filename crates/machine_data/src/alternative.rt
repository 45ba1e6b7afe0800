//! Reservation tables.

ghost use Rattle.std.specs.Prelude.{◌≡◌, ◌<◌, ◌≤◌, ◌↔◌, length, IfOk, IsOk, IsTrue};
ghost use Rattle.machine_data.specs.Alternative.{IsAlternative, AreAlternatives};

use crate::OutOfMemory;
use smallvec::SmallVec;
use std::alloc::Global;
use std::marker::Model;
use std::sync::ArcSlice;

/// A row of a reservation table: the operation holds the unit in the cycle that comes `offset`
/// cycles after its issue.
#[derive(Clone, Copy, Default, PartialEq, Eq)]
pub struct Row {
    /// The unit's number on its machine, from 0; below 64.
    pub unit: u8,
    /// Cycles after the issue, 0 to 63.
    pub offset: u8,
}

/// One way to issue an operation: a reservation table of 1 to 16 different rows. Contracts see the
/// list of its rows.
#[derive(Drop)]
pub struct Alternative {
    rows: SmallVec<Row, 4>,
}

impl Model for Alternative {
    ghost use Rattle.std.specs.Prelude.{List};
    ghost use Rattle.machine_data.specs.declared.alternative.Row.{Row};

    ghost Value = { List Row };

    ghost use Rattle.machine_data.specs.Alternative.{IsAlternative};

    ghost view = { λ a. a.rows.items };

    ghost invariant = { λ a. IsAlternative a.rows.items };
}

impl Alternative {
    /// The alternative with these rows.
    pub fn new(rows: SmallVec<Row, 4>) -> Alternative
        requires { IsAlternative rows.items }
        ensures { result ≡ rows.items }
    {
        Alternative { rows }
    }

    /// The rows, in the order of the machine text.
    pub fn rows(&self) -> &[Row]
        ensures value { result.now ≡ self.now }
        ensures well_formed { IsAlternative self.now }
    {
        self.rows.as_slice()
    }

    /// The same alternative once more. One of up to 4 rows takes no memory.
    pub fn copied(&self, alloc: Global) -> Result<Alternative, OutOfMemory>
        ensures same { IfOk result (λ copy. copy ≡ self.now) }
        ensures small { length self.now ≤ 4 → IsOk result }
    {
        let rows = SmallVec::from_slice(alloc, self.rows())?;
        Ok(Alternative::new(rows))
    }
}

/// The 1 to 16 alternatives by which an operation may be issued, in the order of the text. Those of an opcode
/// of a machine text are at most 8. Contracts see the list of the alternatives' lists of rows.
pub struct Alternatives {
    list: Shelf,
}

// Written out, so that a crate above calls it. What is derived would be proved once more there, for each part.
impl Drop for Alternatives {
    fn drop(self) {
        let Alternatives { list: _ } = self;
    }
}

/// Where a list of alternatives is kept.
#[derive(Drop)]
enum Shelf {
    /// In memory of its own.
    Own(Vec<Alternative>),
    /// In memory that all copies share, so that one more of them takes none.
    Shared(ArcSlice<Alternative>),
}

impl Model for Alternatives {
    ghost use Rattle.std.specs.Prelude.{List};
    ghost use Rattle.machine_data.specs.declared.alternative.Row.{Row};

    ghost Value = { List (List Row) };

    ghost use Rattle.machine_data.specs.Alternative.{AreAlternatives};
    ghost use Rattle.machine_data.specs.inner.Shelves.{on_shelf};

    ghost view = { λ a. on_shelf a.list };

    ghost invariant = { λ a. AreAlternatives (on_shelf a.list) };
}

impl Alternatives {
    /// These alternatives.
    pub fn new(list: Vec<Alternative>) -> Alternatives
        requires { AreAlternatives list.items }
        ensures { result ≡ list.items }
    {
        Alternatives {
            list: Shelf::Own(list),
        }
    }

    /// These alternatives, in memory that their copies share.
    pub fn shared(list: Vec<Alternative>) -> Result<Alternatives, OutOfMemory>
        requires { AreAlternatives list.items }
        ensures { IfOk result (λ shared. shared ≡ list.items) }
    {
        let list = ArcSlice::from_vec(list)?;
        Ok(Alternatives {
            list: Shelf::Shared(list),
        })
    }

    /// The alternatives, in order.
    pub fn as_slice(&self) -> &[Alternative]
        ensures value { result.now ≡ self.now }
        ensures well_formed { AreAlternatives self.now }
    {
        match &self.list {
            Shelf::Own(list) => list.as_slice(),
            Shelf::Shared(list) => list.as_slice(),
        }
    }

    /// Whether these are the same alternatives, row by row and in the same order.
    pub fn are_same(&self, others: &Alternatives) -> bool
        ensures { IsTrue result ↔ self.now ≡ others.now }
    {
        are_same(self.as_slice(), others.as_slice())
    }

    /// The same alternatives once more. Those of a machine text take no memory.
    pub fn copied(&self, alloc: Global) -> Result<Alternatives, OutOfMemory>
        ensures { IfOk result (λ copy. copy ≡ self.now) }
    {
        let list = match &self.list {
            Shelf::Own(list) => Shelf::Own(copied_all(alloc, list.as_slice())?),
            Shelf::Shared(list) => Shelf::Shared(list.clone()?),
        };
        Ok(Alternatives { list })
    }
}

/// Copies of these alternatives.
fn copied_all(alloc: Global, alternatives: &[Alternative]) -> Result<Vec<Alternative>, OutOfMemory>
    ensures { IfOk result (λ copies. copies.items ≡ alternatives.now) }
{
    let mut copies = Vec::with_capacity(alloc, alternatives.len())?;
    for alternative in alternatives {
        copies.push(alternative.copied(alloc)?)?;
    }
    Ok(copies)
}

/// Whether two lists of alternatives are the same, row by row.
fn are_same(some: &[Alternative], others: &[Alternative]) -> bool
    ensures { IsTrue result ↔ some.now ≡ others.now }
{
    if some.len() != others.len() {
        return false;
    }
    for i in 0..some.len() {
        if !are_same_rows(some[i].rows(), others[i].rows()) {
            return false;
        }
    }
    true
}

/// Whether two lists of rows are the same.
fn are_same_rows(some: &[Row], others: &[Row]) -> bool
    ensures { IsTrue result ↔ some.now ≡ others.now }
{
    if some.len() != others.len() {
        return false;
    }
    for i in 0..some.len() {
        if some[i] != others[i] {
            return false;
        }
    }
    true
}
