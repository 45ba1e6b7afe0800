//! Eight consecutive words of a table of masks at once.

ghost use Rattle.std.specs.Prelude.{◌≡◌, ◌+◌, ◌%◌, ◌<◌, ◌≤◌, ◌==◌, ℕ, not, length, slice_index, bit_and, bit_or};
ghost use Rattle.std.specs.Int.{bit_at};
ghost use Rattle.std.specs.List.{All};
ghost use Rattle.mrt.specs.inner.Slots.{IsSlot, rows_in, meets_held};
ghost use Rattle.mrt.specs.inner.Masks.{is_held, Repeats};
ghost use Rattle.mrt.specs.inner.Lanes.{HasLanes};
ghost use Rattle.machine_data.specs.declared.limits.TheConstants.{MAX_INTERVAL};

use crate::rosters::slot::Slot;
use std::simd::prelude::*;

/// At which of eight consecutive cycles, from one whose residue is `base`, no slot is held: bit `k` is
/// set where that is so `k` cycles later, and no other bit is.
pub(crate) fn free_cycles(busy: &[u64], slots: &[Slot], ii: usize, base: usize) -> u64
    requires long { 8 ≤ ii }
    requires few { ii ≤ MAX_INTERVAL }
    requires words { length busy.now ≡ ii + 7 }
    requires repeats { Repeats ii busy.now }
    requires slots { All (IsSlot ii) slots.now }
    requires base { base < ii }
    ensures asked { (time k : ℕ) → time % ii ≡ base → k < 8
        → (bit_at result k == 1) ≡ not (meets_held ii (is_held busy.now) (rows_in slots.now) (time + k)) }
    ensures rest { (k : ℕ) → 8 ≤ k → bit_at result k ≡ 0 }
{
    let mut met = none();
    for slot in slots {
        met = with_words(met, load(busy, slot.residue(base, ii)), slot.mask);
    }
    zero_lanes(met)
}

/// Eight words without a bit.
#[inline(always)]
fn none() -> u64x8
    ensures { HasLanes result (λ _. 0) }
{
    u64x8::splat(0)
}

/// The eight words from a place on.
#[inline(always)]
fn load(words: &[u64], at: usize) -> u64x8
    requires { at + 8 ≤ length words.now }
    ensures { HasLanes result (λ k. slice_index words.now (at + k)) }
{
    u64x8::from_slice(&words[at..])
}

/// The bits that stand in eight words, or under a mask in eight others.
#[inline(always)]
fn with_words(met: u64x8, words: u64x8, mask: u64) -> u64x8
    ensures { HasLanes result (λ k. bit_or (slice_index met k) (bit_and (slice_index words k) mask)) }
{
    met | (words & u64x8::splat(mask))
}

/// Which of eight words have no bit.
#[inline(always)]
fn zero_lanes(met: u64x8) -> u64
    ensures each { (k : ℕ) → k < 8 → (bit_at result k == 1) ≡ (slice_index met k == 0) }
    ensures rest { (k : ℕ) → 8 ≤ k → bit_at result k ≡ 0 }
{
    met.simd_eq(u64x8::splat(0)).to_bitmask()
}
