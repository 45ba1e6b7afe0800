//! A lower bound of the interval by sets of units, which holds whichever alternatives operations take.
//!
//! Of the units of a set, an operation needs at least as many rows as its alternative with the fewest of them. The sum
//! of these over all operations is at most the interval times the number of units in the set (`SchedulesKeepSets`). So
//! no lawful schedule has a shorter interval. Of ResMII that need not be so. `fullest_set` looks at some sets only
//! (`IsReached`): for each operation the units of the rows that its alternatives have at one place, and all units of
//! its alternatives; all units of all operations; and unions of these. A set that it does not look at may be fuller.
//! Rows for each unit are compared in parts of a row so small that two different fractions with at most 64 units are
//! never taken for one.
#![tactic(auto)]

mod first_sets;
mod fullest;
mod laws;
mod rating;
mod units;

pub use fullest::{UnitSet, fullest_set};
pub use laws::{fullest_is_bound, fullest_is_used, schedules_keep_sets};

/// In how many parts a row is counted where the rows for each unit of sets are compared. It is so great that no two fractions whose
/// denominators are at most 64 give the same number of parts.
const PARTS: u32 = 4_096;

/// How often a set is joined with another.
const ROUNDS: usize = 4;
