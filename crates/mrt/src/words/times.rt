//! For each unit a timeline, which has a bit for each time, so that 64 consecutive times are tested at
//! once. They are kept from an interval of 64 on.

ghost use Rattle.std.specs.Prelude.{◌≡◌, ◌+◌, ◌*◌, ◌/◌, ◌%◌, ◌<◌, ◌≤◌, ◌==◌, ◌&&◌, ◌^◌, ℕ, Bool, not, true, false, length, slice_index, if◌then◌else◌};
ghost use Rattle.std.specs.Int.{bit_at};
ghost use Rattle.std.specs.List.{All};
ghost use Rattle.mrt.specs.inner.Slots.{IsSlot, rows_in, meets_held};
ghost use Rattle.mrt.specs.inner.Times.{is_set, Tell};
ghost use Rattle.machine_data.specs.declared.limits.TheConstants.{MAX_INTERVAL, MAX_UNITS};

use crate::rosters::slot::Slot;

/// From which interval on timelines are kept. At a shorter one a word has a bit for each residue.
pub(crate) const LEAST: usize = 64;

/// How many words each unit has at an interval: one below [`LEAST`], and else as few as it takes for 64 consecutive
/// times to stand in its timeline from each residue on.
pub(crate) fn words_at(ii: usize) -> usize
    requires few { ii ≤ MAX_INTERVAL }
    ensures few { result ≤ 257 }
    ensures one { ii < 64 → result ≡ 1 }
    ensures reach { 64 ≤ ii → ii + 64 ≤ 64 * result }
    ensures least { (words : ℕ) → 64 ≤ ii → ii + 64 ≤ 64 * words → result ≤ words }
{
    if ii < LEAST { 1 } else { ii.div_ceil(64) + 1 }
}

/// After how many cycles, counted from one whose residue is `base`, no slot is held; `limit` where one
/// is held in each cycle before that.
pub(crate) fn first_unheld(
    times: &[u64],
    words: usize,
    slots: &[Slot],
    ii: usize,
    base: usize,
    limit: u64,
) -> u64
    requires all { length times.now ≡ 64 * words }
    requires reach { ii + 64 ≤ 64 * words }
    requires few_words { words ≤ 257 }
    requires slots { All (IsSlot ii) slots.now }
    requires base { base < ii }
    requires few { ii ≤ MAX_INTERVAL }
    requires limit { limit ≤ ii }
    ensures few { result ≤ limit }
    ensures met { (held : ℕ → ℕ → Bool) (time sooner : ℕ) → Tell ii words times.now held → time % ii ≡ base → sooner < result
        → meets_held ii held (rows_in slots.now) (time + sooner) ≡ true }
    ensures unmet { (held : ℕ → ℕ → Bool) (time : ℕ) → Tell ii words times.now held → time % ii ≡ base → result < limit
        → meets_held ii held (rows_in slots.now) (time + result) ≡ false }
{
    let mut at = base;
    let mut passed = 0;
    while passed < limit {
        let free = free_cycles(times, words, slots, ii, at, limit - passed);
        if free != 0 {
            return limit.min(passed + u64::from(free.trailing_zeros()));
        }
        passed += 64;
        at = (at + 64) % ii;
    }
    limit
}

/// At which of some consecutive cycles, from one whose residue is `base`, no slot is held: bit `k` is set
/// where that is so `k` cycles later. It tells of `cycles` of them, and of no more than 64: no other bit is set.
fn free_cycles(
    times: &[u64],
    words: usize,
    slots: &[Slot],
    ii: usize,
    base: usize,
    cycles: u64,
) -> u64
    requires all { length times.now ≡ 64 * words }
    requires reach { ii + 64 ≤ 64 * words }
    requires few_words { words ≤ 257 }
    requires slots { All (IsSlot ii) slots.now }
    requires base { base < ii }
    requires few { ii ≤ MAX_INTERVAL }
    ensures asked { (held : ℕ → ℕ → Bool) (time k : ℕ) → Tell ii words times.now held → time % ii ≡ base → k < 64 → k < cycles
        → (bit_at result k == 1) ≡ not (meets_held ii held (rows_in slots.now) (time + k)) }
    ensures rest { (k : ℕ) → k < 64 → cycles ≤ k → bit_at result k ≡ 0 }
{
    // (cycles from `cycles` on count as met, so that the search ends as soon as the others are)
    let mut met = bits_from(cycles);
    for slot in slots {
        met |= sixty_four(times, words, slot.row.unit, slot.residue(base, ii));
        if met == u64::MAX {
            return 0;
        }
    }
    !met
}

/// A word whose bits are set from a place on.
pub(crate) fn bits_from(place: u64) -> u64
    ensures set { (k : ℕ) → k < 64 → place ≤ k → bit_at result k ≡ 1 }
    ensures clear { (k : ℕ) → k < place → bit_at result k ≡ 0 }
{
    if place < 64 { u64::MAX << place } else { 0 }
}

/// A word with the bit of a mask set or cleared.
pub(crate) fn with_bit(word: u64, mask: u64, held: bool) -> u64
    ensures { (own unit : ℕ) → mask ≡ 2 ^ own → own < 64 → unit < MAX_UNITS
        → (bit_at result unit == 1) ≡ (if unit == own then held else (bit_at word unit == 1)) }
{
    if held { word | mask } else { word & !mask }
}

/// The bits of 64 consecutive places of a unit's timeline.
fn sixty_four(times: &[u64], words: usize, unit: u8, place: usize) -> u64
    requires all { length times.now ≡ 64 * words }
    requires few_words { words ≤ 257 }
    requires unit { unit < MAX_UNITS }
    requires reach { place + 64 < 64 * words }
    ensures { (k : ℕ) → k < 64 → bit_at result k ≡ bit_at (slice_index times.now (unit * words + (place + k) / 64)) ((place + k) % 64) }
{
    let first = usize::from(unit) * words + place / 64;
    let both = (u128::from(times[first + 1]) << 64) | u128::from(times[first]);
    ((both >> (place % 64)) & u128::from(u64::MAX)) as u64
}

/// Whether the bit of a unit is set at one place.
pub(crate) fn is_set(times: &[u64], words: usize, unit: u8, place: usize) -> bool
    requires all { length times.now ≡ 64 * words }
    requires few_words { words ≤ 257 }
    requires unit { unit < MAX_UNITS }
    requires place { place < 64 * words }
    ensures { result ≡ is_set words times.now unit place }
{
    times[usize::from(unit) * words + place / 64] & (1 << (place % 64)) != 0
}

/// Sets or clears the bits of a unit at all times with a residue.
pub(crate) fn write(
    times: &mut [u64],
    words: usize,
    unit: u8,
    ii: usize,
    residue: usize,
    held: bool,
)
    requires all { length times.old ≡ 64 * words }
    requires reach { ii + 64 ≤ 64 * words }
    requires few_words { words ≤ 257 }
    requires unit { unit < MAX_UNITS }
    requires residue { residue < ii }
    requires long { 64 ≤ ii }
    requires few { ii ≤ MAX_INTERVAL }
    ensures marked { (other place : ℕ) → other < 64 → place < ii + 64
        → is_set words times.new other place ≡ (if (other == unit) && (place % ii == residue) then held else is_set words times.old other place) }
{
    write_one(times, words, unit, residue, held);
    if residue < 64 {
        write_one(times, words, unit, residue + ii, held);
    }
}

/// Sets or clears the bit of a unit at one place.
fn write_one(times: &mut [u64], words: usize, unit: u8, place: usize, held: bool)
    requires all { length times.old ≡ 64 * words }
    requires few_words { words ≤ 257 }
    requires unit { unit < MAX_UNITS }
    requires place { place < 64 * words }
    ensures marked { (other p : ℕ) → p < 64 * words
        → is_set words times.new other p ≡ (if (other == unit) && (p == place) then held else is_set words times.old other p) }
{
    let at = usize::from(unit) * words + place / 64;
    times[at] = with_bit(times[at], 1 << (place % 64), held);
}
