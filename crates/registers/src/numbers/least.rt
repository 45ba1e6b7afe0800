//! The least numbers of values.

ghost use Rattle.std.specs.Prelude.{◌≡◌, ◌≤◌, IfOk, MatchOption, true, false, length};
ghost use Rattle.std.specs.List.{All};
ghost use Rattle.registers.specs.Allotments.{AreLeast, HaveNone};
ghost use Rattle.registers.specs.Numberless.{HasNoneAt};
ghost use Rattle.registers.specs.Residues.{IsLifeSpan};
ghost use Rattle.machine_data.specs.declared.limits.TheConstants.{MAX_REGISTERS};

use crate::lifetime::Lifetime;
use crate::numbers::gaps::{Gap, least_fit, number_of, take};
use crate::values::crowd::are_crowded;
use crate::values::turns::{Arc, point_of};
use machine_data::OutOfMemory;
use machine_data::limits::MAX_INTERVAL;
use std::alloc::Global;

/// Writes the least numbers of these values, up to the first value that has none, and gives its place where there
/// is one: after the least numbers of those before it, no number is lawful for it. What stands in `numbers` from
/// its place on says nothing. The interval is in cycles.
///
/// Lifetimes in rotating registers are those of B. R. Rau, M. Lee, P. P. Tirumalai and M. S.
/// Schlansker, "Register allocation for software pipelined loops" (1992); the order is first fit.
///
/// # Errors
/// [`OutOfMemory`] where memory ran out.
pub fn fill_least(
    alloc: Global,
    ii: u64,
    registers: usize,
    lives: &[Lifetime],
    numbers: &mut [usize],
) -> Result<Option<usize>, OutOfMemory>
    requires some { 1 ≤ ii }
    requires few { ii ≤ MAX_INTERVAL }
    requires registers_some { 1 ≤ registers }
    requires registers_few { registers ≤ MAX_REGISTERS }
    requires lives { All IsLifeSpan lives.now }
    requires each { length numbers.old ≡ length lives.now }
    ensures each { length numbers.new ≡ length lives.now }
    ensures first { IfOk result (λ found. MatchOption found (AreLeast ii registers lives.now numbers.new)
        (HasNoneAt ii registers lives.now numbers.new)) }
{
    if lives.is_empty() {
        return Ok(None);
    }
    // (the first value's first point is the origin, so that no arc goes past the last point around the registers
    // to the first)
    let origin = point_of(ii, lives[0].first);
    let mut gaps = Vec::with_capacity(alloc, lives.len())?;
    gaps.push_reserved(Gap {
        start: 0,
        room: registers as u64 * MAX_INTERVAL,
    });
    for k in 0..lives.len() {
        let arc = Arc::of(ii, registers, origin, lives[k]);
        let Some(fit) = least_fit(gaps.as_slice(), registers, arc) else {
            return Ok(Some(k));
        };
        numbers[k] = number_of(registers, arc.turn, fit.turn);
        take(
            &mut gaps,
            fit.gap,
            fit.turn * MAX_INTERVAL + arc.phase,
            arc.length,
        )?;
    }
    Ok(None)
}

/// Writes the least numbers of these values where each has one, and tells whether it has. As [`fill_least`], but
/// it answers at once where more values live in one cycle than there are registers, and does not say which value has
/// none. Without an answer `true`, what stands in `numbers` says nothing.
///
/// # Errors
/// [`OutOfMemory`] where memory ran out.
pub fn find_least(
    alloc: Global,
    ii: u64,
    registers: usize,
    lives: &[Lifetime],
    numbers: &mut [usize],
) -> Result<bool, OutOfMemory>
    requires some { 1 ≤ ii }
    requires few { ii ≤ MAX_INTERVAL }
    requires registers_some { 1 ≤ registers }
    requires registers_few { registers ≤ MAX_REGISTERS }
    requires lives { All IsLifeSpan lives.now }
    requires few_lives { length lives.now ≤ 256 }
    requires each { length numbers.old ≡ length lives.now }
    ensures each { length numbers.new ≡ length lives.now }
    ensures least { result ≡ Ok true → AreLeast ii registers lives.now numbers.new }
    ensures none { result ≡ Ok false → HaveNone ii registers lives.now }
{
    if are_crowded(ii, registers, lives) {
        return Ok(false);
    }
    Ok(fill_least(alloc, ii, registers, lives, numbers)?.is_none())
}
