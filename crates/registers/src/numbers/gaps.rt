//! The gaps between the values that have registers.

ghost use Rattle.std.specs.Prelude.{◌≡◌, ◌<◌, ◌≤◌, ◌+◌, ◌*◌, ◌%◌, ◌↔◌, ℕ, OnOk, MatchOption};
ghost use Rattle.registers.specs.inner.Gaps.{AreInOrder, Fits, FitsAt, Overlap, number_of, place_at};
ghost use Rattle.machine_data.specs.declared.limits.TheConstants.{MAX_REGISTERS};

use crate::values::turns::Arc;
use machine_data::OutOfMemory;
use machine_data::limits::MAX_INTERVAL;

/// Points around the registers that no value takes.
#[derive(Clone, Copy)]
pub(crate) struct Gap {
    /// The first point.
    pub(crate) start: u64,
    /// How many points there are.
    pub(crate) room: u64,
}

/// Where an arc fits: the place of the gap, and the turn of the arc's first point.
#[derive(Clone, Copy)]
pub(crate) struct Fit {
    pub(crate) gap: usize,
    pub(crate) turn: u64,
}

/// The first turn from this one on in which an arc fits into a gap.
fn first_fit(gaps: &[Gap], arc: Arc, from: u64) -> Option<Fit>
    requires order { AreInOrder 4194304 gaps.now }
    requires from { from ≤ 256 }
    requires phase { arc.phase < MAX_INTERVAL }
    requires length { arc.length ≤ 70368744194048 }
    ensures { MatchOption result ((t : ℕ) → from ≤ t → ¬ Fits gaps.now (place_at arc.phase t) arc.length)
        (λ f. FitsAt gaps.now f.gap (place_at arc.phase f.turn) arc.length × (from ≤ f.turn)
        × ((t : ℕ) → from ≤ t → t < f.turn → ¬ Fits gaps.now (place_at arc.phase t) arc.length)) }
{
    for k in 0..gaps.len() {
        let gap = gaps[k];
        // (most gaps are too small, and are passed by this alone)
        if arc.length < gap.room {
            let turn = ((gap.start + (MAX_INTERVAL - 1) - arc.phase) / MAX_INTERVAL).max(from);
            if turn * MAX_INTERVAL + arc.phase + arc.length < gap.start + gap.room {
                return Some(Fit { gap: k, turn });
            }
        }
    }
    None
}

/// Where an arc fits with the least number.
pub(crate) fn least_fit(gaps: &[Gap], registers: usize, arc: Arc) -> Option<Fit>
    requires order { AreInOrder (registers * MAX_INTERVAL) gaps.now }
    requires few { registers ≤ MAX_REGISTERS }
    requires turn { arc.turn < registers }
    requires phase { arc.phase < MAX_INTERVAL }
    requires length { arc.length ≤ 70368744194048 }
    ensures { MatchOption result ((c : ℕ) → c < registers → ¬ Fits gaps.now (place_at arc.phase ((arc.turn + c) % registers)) arc.length)
        (λ f. FitsAt gaps.now f.gap (place_at arc.phase f.turn) arc.length × (f.turn < registers)
        × ((c : ℕ) → c < number_of registers arc.turn f.turn → ¬ Fits gaps.now (place_at arc.phase ((arc.turn + c) % registers)) arc.length)) }
{
    match first_fit(gaps, arc, arc.turn) {
        Some(fit) => Some(fit),
        None => first_fit(gaps, arc, 0),
    }
}

/// The number by which a value that begins in one turn with the number 0 begins in another turn.
pub(crate) fn number_of(registers: usize, from: u64, to: u64) -> usize
    requires few { registers ≤ MAX_REGISTERS }
    requires from { from < registers }
    requires to { to < registers }
    ensures value { result ≡ number_of registers from to }
    ensures there { result < registers }
{
    let registers = registers as u64;
    let number = if to < from {
        to + registers - from
    } else {
        to - from
    };
    number as usize
}

/// Takes the points of an arc out of the gap in which it lies.
pub(crate) fn take(gaps: &mut Vec<Gap>, k: usize, at: u64, length: u64) -> Result<(), OutOfMemory>
    requires order { AreInOrder 4194304 gaps.old.items }
    requires fits { FitsAt gaps.old.items k at length }
    ensures order { OnOk result ((around : ℕ) → AreInOrder around gaps.old.items → AreInOrder around gaps.new.items) }
    ensures left { OnOk result ((a l : ℕ) → Fits gaps.new.items a l ↔ (Fits gaps.old.items a l × ¬ Overlap a l at length)) }
{
    let gap = gaps[k];
    let before = at - gap.start;
    let remainder = Gap {
        start: at + length + 1,
        room: gap.room - before - length - 1,
    };
    if before == 0 {
        gaps[k] = remainder;
    } else {
        gaps[k] = Gap {
            start: gap.start,
            room: before,
        };
        gaps.insert(k + 1, remainder)?;
    }
    Ok(())
}
