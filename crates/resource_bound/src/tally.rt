//! Counters of the uses of units.

ghost use Rattle.std.specs.Prelude.{ℕ, ◌+◌, ◌<◌, ◌≤◌, ◌++◌, List, [], length};
ghost use Rattle.std.specs.List.{All};
ghost use Rattle.machine_data.specs.declared.alternative.Row.{Row};
ghost use Rattle.machine_data.specs.Alternative.{AreAlternatives};
ghost use Rattle.unit_bound.specs.Uses.{AtMost, Tallies};
ghost use Rattle.resource_bound.specs.inner.Tallies.{TakesChoice};
ghost use Rattle.machine_data.specs.declared.limits.TheConstants.{MAX_ROWS};

use machine_data::limits::MAX_UNITS;
use machine_data::{Alternative, Row};

/// How many rows use each unit, and the use of the most used unit.
///
/// A loop has at most 128 operations of at most 16 rows. The bounds that the functions below require only keep
/// sums within 16 bits.
#[derive(Clone, Copy)]
pub(crate) struct Tally {
    pub(crate) counts: [u16; MAX_UNITS],
    pub(crate) greatest: u16,
}

/// An alternative's place among those of its operation, and the counters with its rows.
#[derive(Clone, Copy)]
pub(crate) struct Choice {
    pub(crate) number: u8,
    pub(crate) tally: Tally,
}

impl Tally {
    /// The counters before any row.
    pub(crate) fn none() -> Tally
        ensures tallied { Tallies [] result.counts result.greatest }
        ensures empty { AtMost 0 result.counts }
    {
        Tally {
            counts: [0; MAX_UNITS],
            greatest: 0,
        }
    }

    /// These counters with the rows counted too.
    pub(crate) fn with(self, rows: &[Row]) -> Tally
        requires units { All (λ r. r.unit < MAX_UNITS) rows.now }
        requires few { length rows.now ≤ MAX_ROWS }
        requires room { AtMost 60000 self.counts }
        ensures tallied { (taken : List Row) → Tallies taken self.counts self.greatest → Tallies (taken ++ rows.now) result.counts result.greatest }
        ensures grown { (bound : ℕ) → AtMost bound self.counts → AtMost (bound + 16) result.counts }
    {
        let mut counts = self.counts;
        let mut greatest = self.greatest;
        for row in rows {
            let unit = row.unit as usize;
            let count = counts[unit] + 1;
            counts[unit] = count;
            greatest = greatest.max(count);
        }
        Tally { counts, greatest }
    }

    /// The alternative that leaves the most used unit with the lowest use, the first of several.
    pub(crate) fn choose(self, alternatives: &[Alternative]) -> Choice
        requires well_formed { AreAlternatives alternatives.now }
        requires room { AtMost 60000 self.counts }
        ensures best { (taken : List Row) → Tallies taken self.counts self.greatest → TakesChoice taken alternatives.now result.number result.tally.counts result.tally.greatest }
        ensures grown { (bound : ℕ) → AtMost bound self.counts → AtMost (bound + 16) result.tally.counts }
    {
        let mut best = Choice {
            number: 0,
            tally: self.with(alternatives[0].rows()),
        };
        for number in 1..alternatives.len() {
            let tally = self.with(alternatives[number].rows());
            if tally.greatest < best.tally.greatest {
                best = Choice {
                    number: number as u8,
                    tally,
                };
            }
        }
        best
    }
}
