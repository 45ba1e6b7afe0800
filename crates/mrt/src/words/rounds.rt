//! For each unit a word which has a bit for each residue, at an interval below 64: turned round, it tells
//! of all times at once.

ghost use Rattle.std.specs.Prelude.{◌≡◌, ◌+◌, ◌-◌, ◌%◌, ◌<◌, ◌≤◌, ◌==◌, ◌&&◌, ℕ, Bool, not, true, false, length, if◌then◌else◌};
ghost use Rattle.std.specs.Int.{bit_at};
ghost use Rattle.std.specs.List.{All};
ghost use Rattle.mrt.specs.inner.Slots.{IsSlot, rows_in, meets_held};
ghost use Rattle.mrt.specs.inner.Times.{is_on, TellOnce};
ghost use Rattle.machine_data.specs.declared.limits.TheConstants.{MAX_UNITS};

use crate::rosters::slot::Slot;
use crate::words::times::{bits_from, with_bit};

/// After how many cycles, counted from one whose residue is `base`, no slot is held; `limit` where one
/// is held in each cycle before that.
pub(crate) fn first_off(rounds: &[u64], slots: &[Slot], ii: usize, base: usize, limit: u64) -> u64
    requires all { length rounds.now ≡ 64 }
    requires slots { All (IsSlot ii) slots.now }
    requires base { base < ii }
    requires short { ii < 64 }
    requires limit { limit ≤ ii }
    ensures few { result ≤ limit }
    ensures met { (held : ℕ → ℕ → Bool) (time sooner : ℕ) → TellOnce ii rounds.now held → time % ii ≡ base → sooner < result
        → meets_held ii held (rows_in slots.now) (time + sooner) ≡ true }
    ensures unmet { (held : ℕ → ℕ → Bool) (time : ℕ) → TellOnce ii rounds.now held → time % ii ≡ base → result < limit
        → meets_held ii held (rows_in slots.now) (time + result) ≡ false }
{
    let free = free_cycles(rounds, slots, ii, base, limit);
    limit.min(u64::from(free.trailing_zeros()))
}

/// At which of the next `cycles` cycles, from one whose residue is `base`, no slot is held: bit `k` is set
/// where that is so `k` cycles later, and no other bit is.
fn free_cycles(rounds: &[u64], slots: &[Slot], ii: usize, base: usize, cycles: u64) -> u64
    requires all { length rounds.now ≡ 64 }
    requires slots { All (IsSlot ii) slots.now }
    requires base { base < ii }
    requires short { ii < 64 }
    requires cycles { cycles ≤ ii }
    ensures asked { (held : ℕ → ℕ → Bool) (time k : ℕ) → TellOnce ii rounds.now held → time % ii ≡ base → k < cycles
        → (bit_at result k == 1) ≡ not (meets_held ii held (rows_in slots.now) (time + k)) }
    ensures rest { (k : ℕ) → k < 64 → cycles ≤ k → bit_at result k ≡ 0 }
{
    // (cycles from `cycles` on count as met, so that the search ends as soon as the others are)
    let mut met = bits_from(cycles);
    for slot in slots {
        let round = rounds[usize::from(slot.row.unit)];
        met |= turned(round, ii, slot.residue(base, ii));
        if met == u64::MAX {
            return 0;
        }
    }
    !met
}

/// A word of `ii` bits, turned so that the bit of a residue comes first.
fn turned(round: u64, ii: usize, residue: usize) -> u64
    requires short { ii < 64 }
    requires residue { residue < ii }
    ensures before { (k : ℕ) → residue + k < ii → bit_at result k ≡ bit_at round (residue + k) }
    ensures after { (k : ℕ) → k < ii → ii ≤ residue + k → bit_at round (residue + k) ≡ 0
        → bit_at result k ≡ bit_at round (residue + k - ii) }
{
    (round >> residue) | (round << (ii - residue))
}

/// Sets or clears the bit of a unit at a residue.
pub(crate) fn write_round(rounds: &mut [u64], unit: u8, residue: usize, held: bool)
    requires all { length rounds.old ≡ 64 }
    requires unit { unit < MAX_UNITS }
    requires residue { residue < 64 }
    ensures written { (other place : ℕ) → other < 64 → place < 64
        → is_on rounds.new other place ≡ (if (other == unit) && (place == residue) then held else is_on rounds.old other place) }
{
    let unit = usize::from(unit);
    rounds[unit] = with_bit(rounds[unit], 1 << residue, held);
}
