//! How long the values of a list live.

ghost use Rattle.std.specs.Prelude.{◌≡◌, ◌<◌, ◌≤◌, ◌+◌, ℕ, max, length, map, take, drop, slice_index, if◌then◌else◌};
ghost use Rattle.std.specs.List.{All};
ghost use Rattle.registers.specs.Values.{AreValues, IsRead, first_cycle, greatest_of, landing_of, lives_of, read_at, reads_of};
ghost use Rattle.registers.specs.declared.value.Read.{Read};
ghost use Rattle.registers.specs.inner.Lasts.{last_or};
ghost use Rattle.machine_data.specs.declared.limits.TheConstants.{MAX_INTERVAL, MAX_LATENCY};

use crate::lifetime::{Lifetime, MAX_VALUES};
use crate::value::{Read, Value};

/// Raises the entries of each value that is read: to how many iterations ago it was made, and to the cycle after the
/// one in which iteration 0's instance is read.
fn raise_reads(ii: u64, times: &[u64], reads: &[Read], carried: &mut [u64], ends: &mut [u64])
    requires few { ii ≤ MAX_INTERVAL }
    requires issued { All (λ time. time ≤ 1048576) times.now }
    requires reads { All (IsRead (length times.now) 256) reads.now }
    requires long_carried { length carried.old ≡ 256 }
    requires long_ends { length ends.old ≡ 256 }
    ensures long_carried { length carried.new ≡ 256 }
    ensures long_ends { length ends.new ≡ 256 }
    ensures carried { (v : ℕ) → v < 256 → slice_index carried.new v ≡ max (slice_index carried.old v) (greatest_of (map (λ (r : Read). r.distance) (reads_of reads.now v))) }
    ensures ends { (v : ℕ) → v < 256 → slice_index ends.new v ≡ max (slice_index ends.old v) (greatest_of (map (λ (r : Read). read_at ii times.now r + 1) (reads_of reads.now v))) }
{
    for k in 0..reads.len() {
        let read = reads[k];
        let value = read.value;
        let cycle = times[read.reader] + read.offset + ii * read.distance;
        carried[value] = carried[value].max(read.distance);
        ends[value] = ends[value].max(cycle + 1);
    }
}

/// The lifetime of a value that is read at most `farthest` iterations later, and for the last time in
/// the cycle before `after`; if that is 0, the value is never read.
fn live_of(ii: u64, times: &[u64], end: u64, value: Value, farthest: u64, after: u64) -> Lifetime
    requires maker { value.maker < length times.now }
    requires few { length times.now ≤ 256 }
    requires issued { All (λ time. time ≤ 1048576) times.now }
    requires lands { value.lands ≤ MAX_LATENCY }
    ensures operation { result.operation ≡ value.maker }
    ensures first { result.first ≡ first_cycle ii (landing_of times.now value) (max farthest (if value.out then 1 else 0)) }
    ensures last { result.last ≡ max (last_or (landing_of times.now value) after) (if value.out then end else 0) }
{
    let landing = times[value.maker] + value.lands;
    let first = if value.out || farthest > 0 {
        landing.min(ii)
    } else {
        landing
    };
    let last = if after > 0 { after - 1 } else { landing };
    Lifetime {
        operation: value.maker as u8,
        first,
        last: if value.out { last.max(end) } else { last },
    }
}

/// Writes when each value lives in iteration 0, in the order of the values; what stands in `lives` after them stays.
/// `ii` is the interval, `times` has the issue time of each operation in iteration 0, and `end` is the cycle up to which
/// a value that is live at the end has to last, all in cycles. There are at most 256 operations and 256 values, and an
/// iteration takes at most 64 intervals.
///
/// A value lives from the cycle in which it lands, and where it is carried on to later iterations, or is live at the
/// end, at the latest from the cycle `ii` on. It lives to the last cycle in which it is read, or the one in which it
/// lands where it never is. A value that is live at the end lives at least until the cycle `end`.
pub fn fill_lives(
    ii: u64,
    times: &[u64],
    end: u64,
    values: &[Value],
    reads: &[Read],
    lives: &mut [Lifetime],
)
    requires values { AreValues ii times.now values.now reads.now }
    requires room { length values.now ≤ length lives.old }
    ensures exact { take (length values.now) lives.new ≡ lives_of ii times.now end values.now reads.now }
    ensures rest { drop (length values.now) lives.new ≡ drop (length values.now) lives.old }
{
    let mut carried = [0; MAX_VALUES];
    let mut ends = [0; MAX_VALUES];
    raise_reads(ii, times, reads, &mut carried, &mut ends);
    for k in 0..values.len() {
        lives[k] = live_of(ii, times, end, values[k], carried[k], ends[k]);
    }
}
