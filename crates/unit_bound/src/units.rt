//! The resource-constrained lower bound of the initiation interval.

ghost use Rattle.std.specs.Prelude.{◌≡◌, ℕ, ◌+◌, ◌*◌, ◌-◌, ◌<◌, ◌≤◌, ◌==◌, List, ◌++◌, length, map, filter};
ghost use Rattle.std.specs.List.{All};
ghost use Rattle.machine_data.specs.declared.alternative.Row.{Row};
ghost use Rattle.machine_data.specs.Alternative.{AreAlternatives};
ghost use Rattle.unit_bound.specs.Units.{greatest_of, greatest_use, IsBest, IsUnitBound};
ghost use Rattle.unit_bound.specs.Uses.{AtMost, Tallies, TakesBest, CountsRows, IsBelowLawful};
ghost use Rattle.machine_data.specs.declared.limits.TheConstants.{MAX_ROWS, MAX_STATEMENTS};

use crate::offers::{OfList, Offers};
use machine_data::limits::MAX_UNITS;
use machine_data::{Alternative, Alternatives, Row};

/// How many rows use each unit, and the use of the most used unit.
///
/// Each of at most 16 passes takes at most 16 rows for each of 128 operations, so no counter is above
/// 16,384. The bounds that the functions below require only keep its sums within 16 bits.
#[derive(Clone, Copy)]
struct Uses {
    counts: [u16; MAX_UNITS],
    greatest: u16,
}

impl Uses {
    /// These uses with the rows taken on.
    fn with(self, rows: &[Row]) -> Uses
        requires units { All (λ r. r.unit < MAX_UNITS) rows.now }
        requires few { length rows.now ≤ MAX_ROWS }
        requires room { AtMost 60000 self.counts }
        ensures tallied { (taken : List Row) → Tallies taken self.counts self.greatest → Tallies (taken ++ rows.now) result.counts result.greatest }
        ensures grown { (bound : ℕ) → AtMost bound self.counts → AtMost (bound + 16) result.counts }
    {
        let mut counts = self.counts;
        let mut greatest = self.greatest;
        for row in rows {
            let unit = row.unit as usize;
            let count = counts[unit] + 1;
            counts[unit] = count;
            greatest = greatest.max(count);
        }
        Uses { counts, greatest }
    }

    /// The use of the most used unit with these rows taken on. Most alternatives have one row, which is
    /// counted without a copy of the counters.
    fn greatest_with(&self, rows: &[Row]) -> u16
        requires units { All (λ r. r.unit < MAX_UNITS) rows.now }
        requires few { length rows.now ≤ MAX_ROWS }
        requires room { AtMost 60000 self.now.counts }
        ensures { (taken : List Row) → Tallies taken self.now.counts self.now.greatest → result ≡ greatest_use (taken ++ rows.now) }
    {
        match rows {
            [row] => self.greatest.max(self.counts[row.unit as usize] + 1),
            _ => self.with(rows).greatest,
        }
    }

    /// The alternative that leaves the most used unit with the lowest use, the first of several.
    fn best_of(&self, alternatives: &[Alternative]) -> usize
        requires well_formed { AreAlternatives alternatives.now }
        requires room { AtMost 60000 self.now.counts }
        ensures there { result < length alternatives.now }
        ensures best { (taken : List Row) → Tallies taken self.now.counts self.now.greatest → IsBest taken alternatives.now result }
    {
        let mut best = 0;
        let mut least = self.greatest_with(alternatives[0].rows());
        for number in 1..alternatives.len() {
            let greatest = self.greatest_with(alternatives[number].rows());
            if greatest < least {
                best = number;
                least = greatest;
            }
        }
        best
    }

    /// These uses with the best of the alternatives taken on.
    fn with_best(self, alternatives: &[Alternative]) -> Uses
        requires well_formed { AreAlternatives alternatives.now }
        requires room { AtMost 60000 self.counts }
        ensures best { (taken : List Row) → Tallies taken self.counts self.greatest → TakesBest taken alternatives.now result.counts result.greatest }
        ensures grown { (bound : ℕ) → AtMost bound self.counts → AtMost (bound + 16) result.counts }
    {
        let best = self.best_of(alternatives);
        self.with(alternatives[best].rows())
    }

    /// These uses, after all operations that have `freedom` alternatives are taken on in their order.
    fn with_operations<O: Offers>(self, operations: &O, freedom: usize) -> Uses
        requires sound { O.sound operations.now }
        requires count { length (O.operations operations.now) ≤ 128 }
        requires some { 0 < freedom }
        requires few { freedom ≤ 16 }
        requires room { AtMost (2048 * (freedom - 1)) self.counts }
        ensures taken { (done : List (List (List Row))) → CountsRows done self.counts self.greatest
            → CountsRows (done ++ filter (λ alternatives. length alternatives == freedom) (O.operations operations.now)) result.counts result.greatest }
        ensures grown { AtMost (2048 * freedom) result.counts }
    {
        let mut uses = self;
        for operation in 0..operations.count() {
            let alternatives = operations.alternatives(operation);
            if alternatives.len() == freedom {
                uses = uses.with_best(alternatives);
            }
        }
        uses
    }
}

/// The greatest number of alternatives that an operation has, 0 where there is no operation.
fn most_alternatives<O: Offers>(operations: &O) -> usize
    requires { O.sound operations.now }
    ensures greatest { result ≡ greatest_of (map (λ alternatives. length alternatives) (O.operations operations.now)) }
    ensures few { result ≤ 16 }
    ensures offered { All AreAlternatives (O.operations operations.now) }
{
    let mut most = 0;
    for operation in 0..operations.count() {
        most = most.max(operations.alternatives(operation).len());
    }
    most
}

/// The use of the most used unit when the operations, 1 to 128, take their best alternatives: [`res_mii_of`] of
/// operations that anything offers.
pub fn bound_of<O: Offers>(operations: &O) -> u64
    requires sound { O.sound operations.now }
    requires some { 0 < length (O.operations operations.now) }
    requires count { length (O.operations operations.now) ≤ 128 }
    ensures exact { IsUnitBound (O.operations operations.now) result }
    ensures below { IsBelowLawful (O.operations operations.now) result }
    ensures from_one { 1 ≤ result }
    ensures range { result ≤ 2048 }
    ensures offered { All AreAlternatives (O.operations operations.now) }
{
    let mut uses = Uses {
        counts: [0; MAX_UNITS],
        greatest: 0,
    };
    let most = most_alternatives(operations);
    for freedom in 1..=most {
        uses = uses.with_operations(operations, freedom);
    }
    u64::from(uses.greatest)
}

/// The resource-constrained lower bound of the initiation interval of operations that are given by the
/// alternatives of each, 1 to 128 of them, in cycles, 1 to 2,048: ResMII of B. R. Rau, "Iterative Modulo
/// Scheduling", HPL-94-115. No memory is taken.
///
/// The operations are taken by increasing number of alternatives, those of one number in their order.
/// Each takes the alternative that leaves the most used unit with the lowest use, the first of
/// several. The use of the most used unit at the end is the bound. Where every operation has one
/// alternative, no schedule that keeps the units has a smaller interval.
pub fn res_mii_of(operations: &[Alternatives]) -> u64
    requires some { 0 < length operations.now }
    requires few { length operations.now ≤ MAX_STATEMENTS }
    ensures exact { IsUnitBound operations.now result }
    ensures below { IsBelowLawful operations.now result }
    ensures from_one { 1 ≤ result }
    ensures range { result ≤ 2048 }
    ensures offered { All AreAlternatives operations.now }
{
    bound_of(&OfList { operations })
}
