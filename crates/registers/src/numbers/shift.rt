//! Which numbers make two values meet in a register.

ghost use Rattle.std.specs.Prelude.{◌≡◌, ◌<◌, ◌≤◌, ◌↔◌, pos, ◌≤ℤ◌, IsTrue, neg_ℤ};
ghost use Rattle.registers.specs.Residues.{least_shift, greatest_shift, distance_up, Forbids, IsLifeSpan};
ghost use Rattle.registers.specs.inner.Forbidding.{first_shift, MeetIn};
ghost use Rattle.machine_data.specs.declared.limits.TheConstants.{MAX_INTERVAL, MAX_REGISTERS};

use crate::lifetime::Lifetime;

/// The least difference of iterations at which the other value's instance shares a cycle with the one's.
pub(crate) fn least_shift(ii: u64, one: Lifetime, other: Lifetime) -> i64
    requires some { 1 ≤ ii }
    requires few { ii ≤ MAX_INTERVAL }
    requires one { one.first ≤ 4294967296 }
    requires other { other.last ≤ 4294967296 }
    ensures value { result ≡ least_shift ii one other }
    ensures low { neg_ℤ (pos 4294967296) ≤ℤ result }
    ensures high { result ≤ℤ pos 4294967296 }
{
    (one.first as i64 - other.last as i64 + (ii as i64 - 1)).div_euclid(ii as i64)
}

/// The greatest such difference.
pub(crate) fn greatest_shift(ii: u64, one: Lifetime, other: Lifetime) -> i64
    requires some { 1 ≤ ii }
    requires few { ii ≤ MAX_INTERVAL }
    requires one { one.last ≤ 4294967296 }
    requires other { other.first ≤ 4294967296 }
    ensures value { result ≡ greatest_shift ii one other }
    ensures low { neg_ℤ (pos 4294967296) ≤ℤ result }
    ensures high { result ≤ℤ pos 4294967296 }
{
    (one.last as i64 - other.first as i64).div_euclid(ii as i64)
}

/// How far a candidate is above the first forbidden register, around the registers.
pub(crate) fn distance_up(registers: usize, number: usize, low: i64, candidate: usize) -> usize
    requires some { 1 ≤ registers }
    requires few { registers ≤ MAX_REGISTERS }
    requires number { number < registers }
    requires candidate { candidate < registers }
    requires low { neg_ℤ (pos 4294967296) ≤ℤ low }
    requires high { low ≤ℤ pos 4294967296 }
    ensures value { result ≡ distance_up registers number low candidate }
    ensures within { result < registers }
{
    (candidate as i64 - (number as i64 + low)).rem_euclid(registers as i64) as usize
}

/// The first difference, from the least one on, at which the candidate puts the other value's instance into the register
/// of the one's. It may be past the greatest one; then the two meet in no register.
fn first_shift(
    ii: u64,
    registers: usize,
    one: Lifetime,
    number: usize,
    other: Lifetime,
    candidate: usize,
) -> i64
    requires some { 1 ≤ ii }
    requires few { ii ≤ MAX_INTERVAL }
    requires registers_some { 1 ≤ registers }
    requires registers_few { registers ≤ MAX_REGISTERS }
    requires one { one.first ≤ 4294967296 }
    requires other { other.last ≤ 4294967296 }
    requires number { number < registers }
    requires candidate { candidate < registers }
    ensures value { result ≡ first_shift ii registers one number other candidate }
    ensures low { neg_ℤ (pos 4294967296) ≤ℤ result }
    ensures high { result ≤ℤ pos 4294967552 }
{
    let low = least_shift(ii, one, other);
    low + distance_up(registers, number, low, candidate) as i64
}

/// Whether the candidate makes the other value meet the one in a register.
pub(crate) fn forbids(
    ii: u64,
    registers: usize,
    one: Lifetime,
    number: usize,
    other: Lifetime,
    candidate: usize,
) -> bool
    requires some { 1 ≤ ii }
    requires few { ii ≤ MAX_INTERVAL }
    requires registers_some { 1 ≤ registers }
    requires registers_few { registers ≤ MAX_REGISTERS }
    requires one { one.first ≤ one.last }
    requires one_few { one.last ≤ 4294967296 }
    requires other { other.first ≤ other.last }
    requires other_few { other.last ≤ 4294967296 }
    requires number { number < registers }
    requires candidate { candidate < registers }
    ensures { IsTrue result ↔ Forbids ii registers one number other candidate }
{
    first_shift(ii, registers, one, number, other, candidate) <= greatest_shift(ii, one, other)
}

/// A cycle in which instance 0 of the other value meets an instance of the one, where the candidate makes the two meet.
pub(crate) fn shared_cycle(
    ii: u64,
    registers: usize,
    one: Lifetime,
    number: usize,
    other: Lifetime,
    candidate: usize,
) -> u64
    requires some { 1 ≤ ii }
    requires few { ii ≤ MAX_INTERVAL }
    requires registers_some { 1 ≤ registers }
    requires registers_few { registers ≤ MAX_REGISTERS }
    requires one { IsLifeSpan one }
    requires other { IsLifeSpan other }
    requires number { number < registers }
    requires candidate { candidate < registers }
    requires forbids { Forbids ii registers one number other candidate }
    ensures { MeetIn ii registers one number other candidate result }
{
    let shift = first_shift(ii, registers, one, number, other, candidate);
    // (the other's instance `shift` meets the one's instance 0, so its instance 0 meets the one's instance `-shift`)
    let begin = one.first as i64 - shift * ii as i64;
    begin.max(other.first as i64) as u64
}
