//! Sets of units as words of 64 bits: bit `u` tells whether unit `u` is one of the set.

ghost use Rattle.std.specs.Prelude.{◌≡◌, ◌<◌, ◌≤◌, length};
ghost use Rattle.std.specs.List.{All, flat_map, fold};
ghost use Rattle.machine_data.specs.Alternative.{AreAlternatives};
ghost use Rattle.machine_data.specs.declared.alternative.Row.{Row};
ghost use Rattle.machine_data.specs.declared.limits.TheConstants.{MAX_UNITS};
ghost use Rattle.unit_sets.specs.Sets.{is_in};
ghost use Rattle.unit_sets.specs.Fullest.{all_rows, row_at, units_in, units_of, with_row};

use machine_data::limits::MAX_UNITS;
use machine_data::{Alternative, Row};
use unit_bound::Offers;

/// Whether a unit is one of a set.
pub(crate) fn has(set: u64, unit: u8) -> bool
    ensures { result ≡ is_in (units_in set) unit }
{
    usize::from(unit) < MAX_UNITS && (set >> unit) & 1 == 1
}

/// How many units a set has.
pub(crate) fn size(set: u64) -> u32
    ensures number { result ≡ length (units_in set) }
    ensures few { result ≤ MAX_UNITS }
{
    set.count_ones()
}

/// A set with the units of rows.
pub(crate) fn with_rows(set: u64, rows: &[Row]) -> u64
    requires { All (λ (r : Row). r.unit < MAX_UNITS) rows.now }
    ensures { result ≡ fold with_row set rows.now }
{
    let mut units = set;
    for row in rows {
        units |= 1 << row.unit;
    }
    units
}

/// A set with the units of all rows of an operation's alternatives.
pub(crate) fn with_alternatives(set: u64, alternatives: &[Alternative]) -> u64
    requires { AreAlternatives alternatives.now }
    ensures { result ≡ fold with_row set (all_rows alternatives.now) }
{
    let mut units = set;
    for alternative in alternatives {
        units = with_rows(units, alternative.rows());
    }
    units
}

/// The units of all rows of all operations.
pub(crate) fn of_all<O: Offers>(operations: &O) -> u64
    requires { O.sound operations.now }
    ensures { result ≡ units_of (flat_map all_rows (O.operations operations.now)) }
{
    let mut units = 0;
    for number in 0..operations.count() {
        units = with_alternatives(units, operations.alternatives(number));
    }
    units
}

/// A set with the unit of the row at a place of an alternative, if it has so many.
fn with_place(set: u64, rows: &[Row], place: usize) -> u64
    requires { All (λ (r : Row). r.unit < MAX_UNITS) rows.now }
    ensures { result ≡ fold with_row set (row_at place rows.now) }
{
    match rows.get(place) {
        Some(row) => set | 1 << row.unit,
        None => set,
    }
}

/// The units of the rows that alternatives have at a place.
pub(crate) fn at_place(alternatives: &[Alternative], place: usize) -> u64
    requires { AreAlternatives alternatives.now }
    ensures { result ≡ units_of (flat_map (row_at place) alternatives.now) }
{
    let mut units = 0;
    for alternative in alternatives {
        units = with_place(units, alternative.rows(), place);
    }
    units
}
