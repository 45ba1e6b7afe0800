//! How full sets of units are.

ghost use Rattle.std.specs.Prelude.{◌≡◌, ◌≤◌, List, length, true, false};
ghost use Rattle.machine_data.specs.Alternative.{AreAlternatives};
ghost use Rattle.machine_data.specs.declared.alternative.Row.{Row};
ghost use Rattle.machine_data.specs.declared.limits.TheConstants.{MAX_ROWS, MAX_STATEMENTS, MAX_UNITS};
ghost use Rattle.unit_sets.specs.Sets.{rows_in as the_rows_in, least_rows as the_least_rows, set_rows as the_set_rows};
ghost use Rattle.unit_sets.specs.Fullest.{Leads, fill_of, units_in};
ghost use Rattle.unit_sets.specs.inner.Rated.{IsRated};

use crate::PARTS;
use crate::units::{has, size};
use machine_data::{Alternative, Row};
use unit_bound::Offers;

/// How many of at most 16 rows are of units of a set.
fn rows_in(set: u64, rows: &[Row]) -> u16
    requires { length rows.now ≤ MAX_ROWS }
    ensures exact { result ≡ the_rows_in (units_in set) rows.now }
    ensures few { result ≤ MAX_ROWS }
{
    let mut count = 0;
    for row in rows {
        if has(set, row.unit) {
            count += 1;
        }
    }
    count
}

/// How many rows of units of a set an operation has at least, whichever of its alternatives it takes.
fn least_rows(set: u64, alternatives: &[Alternative]) -> u16
    requires { AreAlternatives alternatives.now }
    ensures exact { result ≡ the_least_rows (units_in set) alternatives.now }
    ensures few { result ≤ MAX_ROWS }
{
    let mut least = rows_in(set, alternatives[0].rows());
    for number in 1..alternatives.len() {
        least = least.min(rows_in(set, alternatives[number].rows()));
    }
    least
}

/// How many rows of units of a set at most 128 operations have at least: at most 2,048.
fn set_rows<O: Offers>(set: u64, operations: &O) -> u16
    requires sound { O.sound operations.now }
    requires count { length (O.operations operations.now) ≤ MAX_STATEMENTS }
    ensures exact { result ≡ the_set_rows (units_in set) (O.operations operations.now) }
    ensures few { result ≤ 2048 }
{
    let mut rows = 0;
    for number in 0..operations.count() {
        rows += least_rows(set, operations.alternatives(number));
    }
    rows
}

/// A set with how full it is.
#[derive(Clone, Copy)]
pub(crate) struct Rated {
    pub(crate) units: u64,
    pub(crate) rows: u16,
    pub(crate) size: u32,
    pub(crate) fill: u32,
}

/// A set with how full it is.
pub(crate) fn rating_of<O: Offers>(units: u64, operations: &O) -> Rated
    requires sound { O.sound operations.now }
    requires count { length (O.operations operations.now) ≤ MAX_STATEMENTS }
    ensures rated { IsRated (O.operations operations.now) result }
    ensures same { result.units ≡ units }
    ensures few { result.rows ≤ 2048 }
    ensures small { result.size ≤ MAX_UNITS }
{
    let rows = set_rows(units, operations);
    let size = size(units);
    let fill = if size == 0 {
        0
    } else {
        u32::from(rows) * PARTS / size
    };
    Rated {
        units,
        rows,
        size,
        fill,
    }
}

impl Rated {
    /// Whether this set is before another, which is the one that leads if it is not.
    pub(crate) fn leads(self, other: Rated) -> bool
        ensures yes { (operations : List (List (List Row))) → IsRated operations self → IsRated operations other → result ≡ true → Leads operations self.units other.units }
        ensures no { (operations : List (List (List Row))) → IsRated operations self → IsRated operations other → result ≡ false → Leads operations other.units self.units }
    {
        if self.fill != other.fill {
            return self.fill > other.fill;
        }
        if self.size != other.size {
            return self.size < other.size;
        }
        self.units < other.units
    }
}
