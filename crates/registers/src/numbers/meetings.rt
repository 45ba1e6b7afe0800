//! The first values that meet in a register.

ghost use Rattle.std.specs.Prelude.{◌≡◌, ◌<◌, ◌≤◌, ◌++◌, ◌∷◌, [], length, MatchOption};
ghost use Rattle.std.specs.List.{All};
ghost use Rattle.registers.specs.Allotments.{IsLawfulAllotment};
ghost use Rattle.registers.specs.Meetings.{IsFirstMeeting};
ghost use Rattle.registers.specs.Residues.{IsFreeNumber, IsLifeSpan};
ghost use Rattle.registers.specs.inner.Forbidding.{IsFirstForbidding};
ghost use Rattle.machine_data.specs.declared.limits.TheConstants.{MAX_INTERVAL, MAX_REGISTERS};

use crate::lifetime::Lifetime;
use crate::meeting::Meeting;
use crate::numbers::shift::{forbids, shared_cycle};

/// The place of the first of these values that forbids another one this number.
fn first_forbidding(
    ii: u64,
    registers: usize,
    lives: &[Lifetime],
    numbers: &[usize],
    other: Lifetime,
    number: usize,
) -> Option<usize>
    requires some { 1 ≤ ii }
    requires few { ii ≤ MAX_INTERVAL }
    requires registers_some { 1 ≤ registers }
    requires registers_few { registers ≤ MAX_REGISTERS }
    requires lives { All IsLifeSpan lives.now }
    requires other { IsLifeSpan other }
    requires each { length numbers.now ≡ length lives.now }
    requires there { All (λ n. n < registers) numbers.now }
    requires number { number < registers }
    ensures { MatchOption result (IsFreeNumber ii registers lives.now numbers.now other number)
        (IsFirstForbidding ii registers lives.now numbers.now other number) }
{
    for k in 0..lives.len() {
        if forbids(ii, registers, lives[k], numbers[k], other, number) {
            return Some(k);
        }
    }
    None
}

/// The first meeting of one more value with one of those that have lawful numbers, or with itself.
fn first_meeting_more(
    ii: u64,
    registers: usize,
    lives: &[Lifetime],
    numbers: &[usize],
    other: Lifetime,
    number: usize,
) -> Option<Meeting>
    requires some { 1 ≤ ii }
    requires few { ii ≤ MAX_INTERVAL }
    requires registers_some { 1 ≤ registers }
    requires registers_few { registers ≤ MAX_REGISTERS }
    requires lives { All IsLifeSpan lives.now }
    requires other { IsLifeSpan other }
    requires lawful { IsLawfulAllotment ii registers lives.now numbers.now }
    requires number { number < registers }
    ensures { MatchOption result (IsLawfulAllotment ii registers (lives.now ++ other ∷ []) (numbers.now ++ number ∷ []))
        (IsFirstMeeting ii registers (lives.now ++ other ∷ []) (numbers.now ++ number ∷ [])) }
{
    let later = lives.len();
    if let Some(earlier) = first_forbidding(ii, registers, lives, numbers, other, number) {
        return Some(Meeting {
            earlier,
            later,
            register: number,
            cycle: shared_cycle(
                ii,
                registers,
                lives[earlier],
                numbers[earlier],
                other,
                number,
            ),
        });
    }
    if (other.last - other.first) / ii >= registers as u64 {
        // (the instance `registers` iterations before has the same register, and lives at least until instance 0 begins)
        return Some(Meeting {
            earlier: later,
            later,
            register: number,
            cycle: other.first,
        });
    }
    None
}

/// The first value, in the order of the list, an instance of which shares its register in some cycle with one of a
/// value before it, or with another instance of its own, and the first value with which it does; `None` where the
/// numbers are lawful. A value that meets one before it and itself is told with the one before it. The interval is in
/// cycles.
pub fn first_meeting(
    ii: u64,
    registers: usize,
    lives: &[Lifetime],
    numbers: &[usize],
) -> Option<Meeting>
    requires some { 1 ≤ ii }
    requires few { ii ≤ MAX_INTERVAL }
    requires registers_some { 1 ≤ registers }
    requires registers_few { registers ≤ MAX_REGISTERS }
    requires lives { All IsLifeSpan lives.now }
    requires each { length numbers.now ≡ length lives.now }
    requires there { All (λ number. number < registers) numbers.now }
    ensures exact { MatchOption result (IsLawfulAllotment ii registers lives.now numbers.now)
        (IsFirstMeeting ii registers lives.now numbers.now) }
{
    for later in 0..lives.len() {
        let met = first_meeting_more(
            ii,
            registers,
            &lives[..later],
            &numbers[..later],
            lives[later],
            numbers[later],
        );
        if let Some(meeting) = met {
            return Some(meeting);
        }
    }
    None
}
