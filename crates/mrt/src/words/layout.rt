//! What a table of bits wants of the way in which its bits stand in words.

ghost use Rattle.std.specs.Prelude.{◌≡◌, ◌+◌, ◌%◌, ◌<◌, ◌≤◌, ◌==◌, ◌&&◌, ℕ, Bool, List, true, false, replicate, if◌then◌else◌};
ghost use Rattle.std.specs.List.{All};
ghost use Rattle.mrt.specs.inner.Slots.{IsSlot, rows_in, meets_held};
ghost use Rattle.mrt.specs.Taken.{takes};
ghost use Rattle.machine_data.specs.declared.limits.TheConstants.{MAX_INTERVAL, MAX_UNITS};

use crate::rosters::slot::Slot;

/// A way in which the bits of a table stand in words. A bit tells of a unit and a residue whether the slot is
/// held. Beside the words a table keeps a width, which tells how many of them belong together.
pub trait Layout: Drop {
    /// Whether words of a width are laid out in this way at an interval.
    ghost is_laid: { ℕ → ℕ → List ℕ → Type 0 };

    /// Whether words of a width tell that the slot of a unit at a residue is held.
    ghost tells: { ℕ → List ℕ → ℕ → ℕ → Bool };

    /// The width at an interval, and how many words there are.
    fn sizes(ii: usize) -> (usize, usize)
        requires some { 0 < ii }
        requires few { ii ≤ MAX_INTERVAL }
        ensures laid { is_laid ii result.0 (replicate result.1 0) }
        ensures clear { (unit residue : ℕ) → unit < MAX_UNITS → residue < ii → tells result.0 (replicate result.1 0) unit residue ≡ false };

    /// Whether the slot of a row's unit at a residue is held.
    fn is_held(words: &[u64], width: usize, ii: usize, slot: &Slot, residue: usize) -> bool
        requires laid { is_laid ii width words.now }
        requires few { ii ≤ MAX_INTERVAL }
        requires slot { IsSlot ii slot.now }
        requires residue { residue < ii }
        ensures { result ≡ tells width words.now slot.now.row.unit residue };

    /// Sets or clears the bit of a row's unit at a residue.
    fn write(words: &mut [u64], width: usize, ii: usize, slot: &Slot, residue: usize, held: bool)
        requires laid { is_laid ii width words.old }
        requires few { ii ≤ MAX_INTERVAL }
        requires slot { IsSlot ii slot.now }
        requires residue { residue < ii }
        ensures laid { is_laid ii width words.new }
        ensures written { (unit place : ℕ) → unit < MAX_UNITS → place < ii
            → tells width words.new unit place ≡ (if (unit == slot.now.row.unit) && (place == residue) then held else tells width words.old unit place) };
}

/// A layout, and how its words are searched.
pub trait Search: Layout {
    /// After how many cycles, counted from one whose residue is `base`, no slot is held; `limit` where one
    /// is held in each cycle before that.
    fn first_unmet(
        words: &[u64],
        width: usize,
        slots: &[Slot],
        ii: usize,
        base: usize,
        limit: u64,
    ) -> u64
        requires laid { Self.is_laid ii width words.now }
        requires few { ii ≤ MAX_INTERVAL }
        requires slots { All (IsSlot ii) slots.now }
        requires base { base < ii }
        requires limit { limit ≤ ii }
        ensures few { result ≤ limit }
        ensures met { (time sooner : ℕ) → time % ii ≡ base → sooner < result
            → meets_held ii (Self.tells width words.now) (rows_in slots.now) (time + sooner) ≡ true }
        ensures unmet { (time : ℕ) → time % ii ≡ base → result < limit
            → meets_held ii (Self.tells width words.now) (rows_in slots.now) (time + result) ≡ false };
}

/// Whether some slot is held, for an operation issued at a time whose residue is `base`.
pub(crate) fn is_met<L: Layout>(
    words: &[u64],
    width: usize,
    slots: &[Slot],
    ii: usize,
    base: usize,
) -> bool
    requires laid { L.is_laid ii width words.now }
    requires few { ii ≤ MAX_INTERVAL }
    requires slots { All (IsSlot ii) slots.now }
    requires base { base < ii }
    ensures { (time : ℕ) → time % ii ≡ base → result ≡ meets_held ii (L.tells width words.now) (rows_in slots.now) time }
{
    for slot in slots {
        if L::is_held(words, width, ii, slot, slot.residue(base, ii)) {
            return true;
        }
    }
    false
}

/// Sets or clears the bits of slots, for an operation issued at a time whose residue is `base`.
pub(crate) fn mark<L: Layout>(
    words: &mut [u64],
    width: usize,
    slots: &[Slot],
    ii: usize,
    base: usize,
    held: bool,
)
    requires laid { L.is_laid ii width words.old }
    requires few { ii ≤ MAX_INTERVAL }
    requires slots { All (IsSlot ii) slots.now }
    requires base { base < ii }
    ensures laid { L.is_laid ii width words.new }
    ensures marked { (time unit residue : ℕ) → time % ii ≡ base → unit < MAX_UNITS → residue < ii
        → L.tells width words.new unit residue ≡ (if takes ii (rows_in slots.now) time unit residue then held else L.tells width words.old unit residue) }
{
    for slot in slots {
        L::write(words, width, ii, slot, slot.residue(base, ii), held);
    }
}
