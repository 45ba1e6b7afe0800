//! Registers for values.

ghost use Rattle.std.specs.Prelude.{◌≡◌, ◌≤◌, ℕ, List, IfOk, MatchOption, vec_len};
ghost use Rattle.overlap.specs.Allotments.{IsAllotment, AreLeast, LeastFor, NoneFor, Suits};
ghost use Rattle.overlap.specs.Lifetimes.{lifetimes_of};
ghost use Rattle.registers.specs.Numberless.{HasNone};
ghost use Rattle.rotating.specs.Allotting.{IsAllotted};
ghost use Rattle.rotating.specs.CheckAnswers.{CheckAnswers};
ghost use Rattle.machine_data.specs.declared.limits.TheConstants.{MAX_REGISTERS};

use crate::values::lifetime::{fill_lifetimes, lifetimes};
use loop_schedules::Schedule;
use machine_data::OutOfMemory;
use machine_data::limits::MAX_STATEMENTS;
use overlap::Lifetime;
use registers::{are_lawful, fill_least, find_least};
use std::alloc::Global;
use std::marker::Model;

/// An allotment of rotating registers: for each value of a schedule, in text order, the number of the
/// register in which its instance of iteration 0 stands. The instance of iteration `j` stands in the
/// register `number - j`, modulo the number of registers. Contracts see both as data.
#[derive(Drop)]
pub struct Allotment {
    registers: u64,
    numbers: Vec<usize>,
}

impl Model for Allotment {
    ghost use Rattle.overlap.specs.Allotments.{AllotmentData, IsAllotment};

    ghost Value = { AllotmentData };

    ghost view = { λ a. record { registers = a.registers; numbers = a.numbers.items } };

    ghost invariant = { λ a. IsAllotment (record { registers = a.registers; numbers = a.numbers.items }) };
}

impl Allotment {
    /// How many rotating registers there are, 1 to 256.
    pub fn registers(&self) -> u64
        ensures value { result ≡ self.now.registers }
        ensures well_formed { IsAllotment self.now }
    {
        self.registers
    }

    /// The number of each value's register, in text order; each is below the number of registers.
    pub fn numbers(&self) -> &[usize]
        ensures value { result.now ≡ self.now.numbers }
        ensures well_formed { IsAllotment self.now }
    {
        self.numbers.as_slice()
    }

    /// The allotment of these numbers, where they are lawful: one for each value, each below the number
    /// of registers, and no two different instances of values ever in one register in one cycle.
    /// Instances of every iteration count, those before the first and after the last ones too. Nothing
    /// is allocated.
    ///
    /// # Errors
    /// The numbers, unchanged, where they are not lawful.
    pub fn check(
        schedule: &Schedule,
        registers: u64,
        numbers: Vec<usize>,
    ) -> Result<Allotment, Vec<usize>>
        requires some { 1 ≤ registers }
        requires few { registers ≤ MAX_REGISTERS }
        ensures exact { CheckAnswers schedule.now registers numbers.items result }
    {
        let ii = schedule.ii();
        let mut lives = [Lifetime::default(); MAX_STATEMENTS];
        let count = fill_lifetimes(schedule, &mut lives);
        if are_lawful(ii, registers as usize, &lives[..count], numbers.as_slice()) {
            Ok(Allotment { registers, numbers })
        } else {
            Err(numbers)
        }
    }
}

/// `count` zeros.
pub(crate) fn zeros(alloc: Global, count: usize) -> Result<Vec<usize>, OutOfMemory>
    ensures { IfOk result (λ v. vec_len v ≡ count) }
{
    vec![in alloc; 0; count]
}

/// The allotment in which each value, in text order, has the least number that is lawful beside itself
/// and the values before it; none where some value has no such number. There may be more or fewer
/// registers than the machine has.
///
/// Lifetimes in rotating registers are those of B. R. Rau, M. Lee, P. P. Tirumalai and M. S.
/// Schlansker, "Register allocation for software pipelined loops" (1992); the order is first fit.
///
/// # Errors
/// [`OutOfMemory`] where memory ran out.
pub fn allot(
    alloc: Global,
    schedule: &Schedule,
    registers: u64,
) -> Result<Option<Allotment>, OutOfMemory>
    requires some { 1 ≤ registers }
    requires few { registers ≤ MAX_REGISTERS }
    ensures exact { IfOk result (λ found. MatchOption found (NoneFor schedule.now registers) (λ a. (a.registers ≡ registers) × LeastFor schedule.now a)) }
    ensures lawful { IfOk result (λ found. MatchOption found (Unit {0}) (Suits schedule.now)) }
{
    let lives = lifetimes(alloc, schedule)?;
    let mut numbers = zeros(alloc, lives.len())?;
    let found = find_least(
        alloc,
        schedule.ii(),
        registers as usize,
        lives.as_slice(),
        numbers.as_mut_slice(),
    )?;
    if found {
        Ok(Some(Allotment { registers, numbers }))
    } else {
        Ok(None)
    }
}

/// Registers for all values, or the first value that has none.
#[derive(Drop)]
pub enum Allotted {
    /// The allotment that [`allot`] finds.
    All(Allotment),
    /// The lifetime of the first value, in text order, that gets no number once those before it have their
    /// least ones.
    Lacks(Lifetime),
}

/// The allotment of [`allot`], or the first value that keeps a schedule from one: it goes over the values
/// once for either.
///
/// # Errors
/// [`OutOfMemory`] where memory ran out.
pub fn allot_or_lack(
    alloc: Global,
    schedule: &Schedule,
    registers: u64,
) -> Result<Allotted, OutOfMemory>
    requires some { 1 ≤ registers }
    requires few { registers ≤ MAX_REGISTERS }
    ensures exact { IfOk result (IsAllotted schedule.now registers) }
{
    let lives = lifetimes(alloc, schedule)?;
    let mut numbers = zeros(alloc, lives.len())?;
    let found = fill_least(
        alloc,
        schedule.ii(),
        registers as usize,
        lives.as_slice(),
        numbers.as_mut_slice(),
    )?;
    match found {
        Some(place) => Ok(Allotted::Lacks(lives[place])),
        None => Ok(Allotted::All(Allotment { registers, numbers })),
    }
}

/// The lifetime of the first value, in text order, that gets no number once those before it have their
/// least ones; `None` where all get one. It is the value for which [`allot`] finds no allotment.
///
/// # Errors
/// [`OutOfMemory`] where memory ran out.
pub fn first_without_number(
    alloc: Global,
    schedule: &Schedule,
    registers: u64,
) -> Result<Option<Lifetime>, OutOfMemory>
    requires some { 1 ≤ registers }
    requires few { registers ≤ MAX_REGISTERS }
    ensures exact { IfOk result (λ found. MatchOption found ((numbers : List ℕ) × AreLeast schedule.now.ii registers (lifetimes_of schedule.now) numbers)
        (HasNone schedule.now.ii registers (lifetimes_of schedule.now))) }
{
    match allot_or_lack(alloc, schedule, registers)? {
        Allotted::All(_) => Ok(None),
        Allotted::Lacks(life) => Ok(Some(life)),
    }
}
