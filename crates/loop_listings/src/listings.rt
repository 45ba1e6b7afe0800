//! Listings.

ghost use Rattle.std.specs.Prelude.{◌≡◌, ◌≤◌, ◌++◌, ◌-◌, length, vec_capacity, vec_len, IfOk};
ghost use Rattle.std.specs.List.{All};
ghost use Rattle.loop_listings.specs.Listings.{IsListing, IsRow, listing_of, listing_row, listing_rows};

use crate::choices::Choice;
use loop_schedules::Prepared;
use machine_data::{Name, OutOfMemory};
use std::alloc::Global;
use std::marker::Model;

/// What is told of a loop.
#[derive(Drop)]
pub struct Row {
    /// The loop's name.
    pub name: Name,
    /// How many operations it has.
    pub operations: usize,
    /// How many of its values are live at the end.
    pub outs: usize,
    /// The resource-constrained lower bound of the interval, in cycles.
    pub resources: u64,
    /// The recurrence-constrained lower bound of the interval, in cycles.
    pub recurrences: u64,
    /// What is chosen for it.
    pub choice: Choice,
}

/// What is told of each loop of a file, in order. Contracts see the ceiling and the rows.
pub struct Listing {
    ceiling: u64,
    rows: Vec<Row>,
}

// Written out, so that a crate above calls it. What is derived would be proved once more there, for each part.
impl Drop for Listing {
    fn drop(self) {
        let Listing {
            ceiling: _,
            rows: _,
        } = self;
    }
}

impl Model for Listing {
    ghost use Rattle.loop_listings.specs.Listings.{ListingData, IsListing};

    ghost Value = { ListingData };

    ghost view = { λ l. record { ceiling = l.ceiling; rows = l.rows.items } };

    ghost invariant = { λ l. IsListing (record { ceiling = l.ceiling; rows = l.rows.items }) };
}

impl Listing {
    /// The listing of loops with their choices. The ceiling, 0 to 255, is that of each loop.
    ///
    /// # Errors
    /// Memory ran out.
    pub fn of(
        alloc: Global,
        ceiling: u8,
        loops: &[Prepared],
        choices: Vec<Choice>,
    ) -> Result<Listing, OutOfMemory>
        requires ceilings { All (λ (p : _). p.ceiling ≡ ceiling) loops.now }
        requires each { vec_len choices ≡ length loops.now }
        ensures value { IfOk result (λ l. l ≡ listing_of ceiling loops.now choices.items) }
    {
        let mut rows = Vec::with_capacity(alloc, loops.len())?;
        fill_rows(&mut rows, loops, choices);
        let ceiling = u64::from(ceiling);
        Ok(Listing { ceiling, rows })
    }

    /// How many intervals above the least one are tried, 0 to 255.
    pub fn ceiling(&self) -> u64
        ensures value { result ≡ self.now.ceiling }
        ensures well_formed { IsListing self.now }
    {
        self.ceiling
    }

    /// A row for each loop, in order.
    pub fn rows(&self) -> &[Row]
        ensures value { result.now ≡ self.now.rows }
        ensures well_formed { IsListing self.now }
    {
        self.rows.as_slice()
    }
}

/// Adds a row for each loop with its choice.
fn fill_rows(rows: &mut Vec<Row>, loops: &[Prepared], choices: Vec<Choice>)
    requires room { length loops.now ≤ vec_capacity rows.old - vec_len rows.old }
    requires each { vec_len choices ≡ length loops.now }
    requires rows { All IsRow rows.old.items }
    ensures rows { rows.new.items ≡ rows.old.items ++ listing_rows loops.now choices.items }
    ensures are_rows { All IsRow rows.new.items }
{
    let mut choices = choices.into_iter();
    for prepared in loops {
        if let Some(choice) = choices.next() {
            rows.push_reserved(row_of(prepared, choice));
        }
    }
}

/// What is told of a loop with its choice.
fn row_of(prepared: &Prepared, choice: Choice) -> Row
    ensures value { result ≡ listing_row prepared.now choice }
    ensures is_row { IsRow result }
{
    let innermost = prepared.innermost();
    Row {
        name: innermost.name().copied(),
        operations: innermost.statements().len(),
        outs: innermost.outs().len(),
        resources: prepared.resources(),
        recurrences: prepared.recurrences(),
        choice,
    }
}
