//! Cycles and lifetimes told by turns, so that they are compared without a division by the interval.

ghost use Rattle.std.specs.Prelude.{◌≡◌, ◌≤◌, ◌<◌};
ghost use Rattle.registers.specs.Residues.{IsLifeSpan};
ghost use Rattle.registers.specs.inner.Turns.{arc_of, point_of};
ghost use Rattle.machine_data.specs.declared.limits.TheConstants.{MAX_REGISTERS};

use crate::lifetime::Lifetime;
use machine_data::limits::MAX_INTERVAL;

/// How many points there are for each register: 2^33 turns, so that no point is below 0.
const AROUND: u64 = 140_737_488_355_328;

/// Where a value lies around the registers, told from an origin. Its first point is told by its turn, with
/// the number 0, and the points of the turn before it; the number of a value counts as turns.
#[derive(Clone, Copy)]
pub(crate) struct Arc {
    /// The turn of its first point, below the number of registers.
    pub(crate) turn: u64,
    /// The points of that turn before its first one.
    pub(crate) phase: u64,
    /// How far its last point is after its first one.
    pub(crate) length: u64,
}

/// The point of a cycle: the whole intervals before it as turns, and the cycles beyond them, in one
/// number. Each turn has as many points as an interval may have cycles.
pub(crate) fn point_of(ii: u64, cycle: u64) -> u64
    requires some { 1 ≤ ii }
    requires few { ii ≤ MAX_INTERVAL }
    requires cycle { cycle ≤ 4294967296 }
    ensures value { result ≡ point_of ii cycle }
    ensures small { result ≤ 70368744194048 }
{
    cycle / ii * MAX_INTERVAL + cycle % ii
}

impl Arc {
    /// Where a value lies.
    pub(crate) fn of(ii: u64, registers: usize, origin: u64, life: Lifetime) -> Arc
        requires some { 1 ≤ ii }
        requires few { ii ≤ MAX_INTERVAL }
        requires registers_some { 1 ≤ registers }
        requires registers_few { registers ≤ MAX_REGISTERS }
        requires origin { origin ≤ 70368744194048 }
        requires life { IsLifeSpan life }
        ensures value { result ≡ arc_of ii registers origin life }
        ensures turn { result.turn < registers }
        ensures phase { result.phase < MAX_INTERVAL }
        ensures length { result.length ≤ 70368744194048 }
    {
        let first = point_of(ii, life.first);
        let last = point_of(ii, life.last);
        let begin = first + (registers as u64 * AROUND - origin);
        Arc {
            turn: begin / MAX_INTERVAL % registers as u64,
            phase: begin % MAX_INTERVAL,
            length: last - first,
        }
    }
}
