//! One word of units for each residue.

ghost use Rattle.std.specs.Prelude.{◌≡◌, ◌+◌, ◌-◌, ◌%◌, ◌<◌, ◌≤◌, ℕ, true, false, MatchOption};
ghost use Rattle.std.specs.List.{All};
ghost use Rattle.mrt.specs.inner.Slots.{IsSlot, rows_in, meets_held};
ghost use Rattle.mrt.specs.inner.Masks.{is_held, AreMasks};
ghost use Rattle.machine_data.specs.declared.limits.TheConstants.{MAX_INTERVAL};

use crate::rosters::slot::Slot;
use crate::words::lanes::free_cycles;
use crate::words::layout::{Layout, Search, is_met};
use crate::words::times::with_bit;

/// For each residue one word whose bit `u` tells that unit `u` is held. From an interval of 8 on the first seven
/// words are repeated at the end, so that those of eight consecutive times always stand side by side.
#[derive(Drop)]
pub struct Masks;

impl Layout for Masks {
    ghost is_laid = { λ ii width words. (width ≡ 1) × AreMasks ii words };

    ghost tells = { λ width words. is_held words };

    fn sizes(ii: usize) -> (usize, usize) {
        if ii < 8 { (1, ii) } else { (1, ii + 7) }
    }

    fn is_held(words: &[u64], _width: usize, _ii: usize, slot: &Slot, residue: usize) -> bool {
        words[residue] & slot.mask != 0
    }

    fn write(words: &mut [u64], _width: usize, ii: usize, slot: &Slot, residue: usize, held: bool) {
        let word = with_bit(words[residue], slot.mask, held);
        words[residue] = word;
        if residue + ii < words.len() {
            words[residue + ii] = word;
        }
    }
}

impl Search for Masks {
    fn first_unmet(
        words: &[u64],
        width: usize,
        slots: &[Slot],
        ii: usize,
        base: usize,
        limit: u64,
    ) -> u64 {
        if let Some(cycle) = first_of_eights(words, slots, ii, base, limit) {
            return cycle;
        }
        for cycle in limit - limit % 8..limit {
            if !is_met::<Masks>(words, width, slots, ii, later(base, cycle, ii)) {
                return cycle;
            }
        }
        limit
    }
}

/// After how many cycles, counted from one whose residue is `base`, no slot is held, as far as whole
/// eights of cycles go below the limit: each is tested at once.
fn first_of_eights(words: &[u64], slots: &[Slot], ii: usize, base: usize, limit: u64) -> Option<u64>
    requires laid { AreMasks ii words.now }
    requires few { ii ≤ MAX_INTERVAL }
    requires slots { All (IsSlot ii) slots.now }
    requires base { base < ii }
    requires limit { limit ≤ ii }
    ensures { (time : ℕ) → time % ii ≡ base → MatchOption result
        ((sooner : ℕ) → sooner < limit - limit % 8 → meets_held ii (is_held words.now) (rows_in slots.now) (time + sooner) ≡ true)
        (λ cycle. (cycle < limit) × (meets_held ii (is_held words.now) (rows_in slots.now) (time + cycle) ≡ false)
        × ((sooner : ℕ) → sooner < cycle → meets_held ii (is_held words.now) (rows_in slots.now) (time + sooner) ≡ true)) }
{
    for eight in 0..limit / 8 {
        let passed = 8 * eight;
        let first = first_of_eight(words, slots, ii, later(base, passed, ii));
        if first < 8 {
            return Some(passed + first);
        }
    }
    None
}

/// After how many of eight cycles, from one whose residue is `base`, no slot is held; 8 where one is held in
/// each of them.
fn first_of_eight(words: &[u64], slots: &[Slot], ii: usize, base: usize) -> u64
    requires laid { AreMasks ii words.now }
    requires eight { 8 ≤ ii }
    requires few { ii ≤ MAX_INTERVAL }
    requires slots { All (IsSlot ii) slots.now }
    requires base { base < ii }
    ensures few { result ≤ 8 }
    ensures met { (time sooner : ℕ) → time % ii ≡ base → sooner < result
        → meets_held ii (is_held words.now) (rows_in slots.now) (time + sooner) ≡ true }
    ensures unmet { (time : ℕ) → time % ii ≡ base → result < 8
        → meets_held ii (is_held words.now) (rows_in slots.now) (time + result) ≡ false }
{
    let free = free_cycles(words, slots, ii, base);
    8_u64.min(u64::from(free.trailing_zeros()))
}

/// The residue of a time some cycles after one whose residue is `base`.
fn later(base: usize, cycles: u64, ii: usize) -> usize
    requires base { base < ii }
    requires cycles { cycles ≤ ii }
    requires few { ii ≤ MAX_INTERVAL }
    ensures below { result < ii }
    ensures value { (time : ℕ) → time % ii ≡ base → result ≡ (time + cycles) % ii }
{
    let sum = base + cycles as usize;
    if sum < ii { sum } else { sum - ii }
}
