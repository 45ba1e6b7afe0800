//! What a modulo reservation table does, however it is kept.

ghost use Rattle.std.specs.Prelude.{◌≡◌, ◌+◌, ◌^◌, ◌<◌, ◌≤◌, ℕ, [], length, map, replicate, Some, None, IsSome, IfOk, slice_set, slice_get, slice_index_or};
ghost use Rattle.std.specs.List.{All};
ghost use Rattle.machine_data.specs.declared.alternative.Row.{Row};
ghost use Rattle.mrt.specs.Placements.{OperationAlternatives, Placements, placement_of, alternatives_of, rows_of, IsFree, IsFirstFree, IsFirstSlot, IsHolder};
ghost use Rattle.machine_data.specs.declared.limits.TheConstants.{MAX_INTERVAL};

use machine_data::{Alternatives, OutOfMemory};
use std::alloc::Global;

/// A modulo reservation table for some operations at one initiation interval. Contracts see the set
/// of its placements, each an operation with the time of its issue and the alternative by which it is
/// issued, and nothing of how the set is kept. Times are in cycles. Only [`ModuloTable::make`],
/// [`ModuloTable::of_kinds`] and [`ModuloTable::at`] take memory.
pub trait ModuloTable: Drop {
    /// The set of placements: for each operation its placement, where it has one.
    ghost placed: { Self → Placements };

    /// The alternatives of each operation.
    ghost operations: { Self → OperationAlternatives };

    /// The initiation interval, in cycles.
    ghost interval: { Self → ℕ };

    /// A table of these operations at an initiation interval, with nothing placed. It copies what it
    /// needs of the alternatives.
    fn make(alloc: Global, alternatives: &[Alternatives], ii: u64) -> Result<Self, OutOfMemory>
        requires some { 0 < ii }
        requires few { ii ≤ MAX_INTERVAL }
        ensures empty { IfOk result (λ table. placed table ≡ replicate (length alternatives.now) None) }
        ensures operations { IfOk result (λ table. operations table ≡ alternatives.now) }
        ensures interval { IfOk result (λ table. interval table ≡ ii) };

    /// A table of operations that are told by their kinds, at an initiation interval, with nothing placed: `alternatives`
    /// has those of each kind, and `kinds` the kind of each operation, by its number, from 0. It is the table that
    /// [`ModuloTable::make`] gives for the alternatives of each operation, but which operations share them is not sought.
    fn of_kinds(
        alloc: Global,
        alternatives: &[Alternatives],
        kinds: &[usize],
        ii: u64,
    ) -> Result<Self, OutOfMemory>
        requires some { 0 < ii }
        requires few { ii ≤ MAX_INTERVAL }
        requires kinds { All (λ kind. kind < length alternatives.now) kinds.now }
        ensures empty { IfOk result (λ table. placed table ≡ replicate (length kinds.now) None) }
        ensures operations { IfOk result (λ table. operations table ≡ map (λ kind. slice_index_or alternatives.now kind []) kinds.now) }
        ensures interval { IfOk result (λ table. interval table ≡ ii) };

    /// A table of the same operations at another initiation interval, with nothing placed. It uses the memory
    /// of this one again, and less is computed than by [`ModuloTable::make`].
    fn at(self, ii: u64) -> Result<Self, OutOfMemory>
        requires some { 0 < ii }
        requires few { ii ≤ MAX_INTERVAL }
        ensures empty { IfOk result (λ table. placed table ≡ replicate (length (operations self)) None) }
        ensures operations { IfOk result (λ table. operations table ≡ operations self) }
        ensures interval { IfOk result (λ table. interval table ≡ ii) };

    /// The initiation interval, in cycles.
    fn ii(&self) -> u64
        ensures { result ≡ interval self.now };

    /// The first alternative by which an operation can be issued at a time: it does not collide with
    /// itself, and meets no placed operation.
    fn free(&self, op: usize, time: u64) -> Option<usize>
        requires there { op < length (operations self.now) }
        requires time { time < 2 ^ 32 }
        ensures { IsFirstFree (interval self.now) (operations self.now) (placed self.now) op time result };

    /// The operation that holds the slot of a row of one of an operation's alternatives, issued at a
    /// time.
    fn holder(&self, op: usize, alternative: usize, row: usize, time: u64) -> Option<usize>
        requires there { op < length (operations self.now) }
        requires alternative { alternative < length (alternatives_of (operations self.now) op) }
        requires row { row < length (rows_of (operations self.now) op alternative) }
        requires time { time < 2 ^ 32 }
        ensures { (r : Row) → slice_get (rows_of (operations self.now) op alternative) row ≡ Some r
            → IsHolder (interval self.now) (operations self.now) (placed self.now) r time result };

    /// Places an operation.
    fn claim(&mut self, op: usize, time: u64, alternative: usize)
        requires there { op < length (operations self.old) }
        requires time { time < 2 ^ 32 }
        requires unplaced { placement_of (placed self.old) op ≡ None }
        requires free { IsFree (interval self.old) (operations self.old) (placed self.old) op time alternative }
        ensures placed { placed self.new ≡ slice_set (placed self.old) op (Some (record { time = time; alternative = alternative })) }
        ensures operations { operations self.new ≡ operations self.old }
        ensures interval { interval self.new ≡ interval self.old };

    /// Takes a placed operation out.
    fn release(&mut self, op: usize)
        requires there { op < length (operations self.old) }
        requires placed { IsSome (placement_of (placed self.old) op) }
        ensures placed { placed self.new ≡ slice_set (placed self.old) op None }
        ensures operations { operations self.new ≡ operations self.old }
        ensures interval { interval self.new ≡ interval self.old };

    /// The least time within one initiation interval from `start` on at which an operation can be
    /// issued, and the first alternative there.
    fn first_free(&self, op: usize, start: u64) -> Option<(u64, usize)>
        requires there { op < length (operations self.now) }
        requires time { start + interval self.now ≤ 2 ^ 32 }
        ensures { IsFirstSlot (interval self.now) (operations self.now) (placed self.now) op start result }
    {
        for time in start..start + self.ii() {
            if let Some(alternative) = self.free(op, time) {
                return Some((time, alternative));
            }
        }
        None
    }
}
