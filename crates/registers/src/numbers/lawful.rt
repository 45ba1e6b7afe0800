//! Whether numbers are lawful.

ghost use Rattle.std.specs.Prelude.{◌≡◌, ◌<◌, ◌≤◌, ◌↔◌, IsTrue, true};
ghost use Rattle.std.specs.List.{All};
ghost use Rattle.registers.specs.Allotments.{IsLawfulAllotment};
ghost use Rattle.registers.specs.Residues.{IsLifeSpan};
ghost use Rattle.machine_data.specs.declared.limits.TheConstants.{MAX_INTERVAL, MAX_REGISTERS};

use crate::lifetime::Lifetime;
use crate::numbers::meetings::first_meeting;

/// Whether each number is that of a register.
fn are_registers(registers: usize, numbers: &[usize]) -> bool
    ensures { IsTrue result ↔ All (λ number. number < registers) numbers.now }
{
    numbers.iter().all(|number| *number < registers)
}

/// Whether the numbers are lawful for the values at an interval, in cycles: one for each, each below the number of
/// registers, and no two different instances of values ever in one register in one cycle. Instances of every
/// iteration count, those before the first and after the last ones too.
pub fn are_lawful(ii: u64, registers: usize, lives: &[Lifetime], numbers: &[usize]) -> bool
    requires some { 1 ≤ ii }
    requires few { ii ≤ MAX_INTERVAL }
    requires registers_some { 1 ≤ registers }
    requires registers_few { registers ≤ MAX_REGISTERS }
    requires lives { All IsLifeSpan lives.now }
    ensures { (result ≡ true) ↔ IsLawfulAllotment ii registers lives.now numbers.now }
{
    numbers.len() == lives.len()
        && are_registers(registers, numbers)
        && first_meeting(ii, registers, lives, numbers).is_none()
}
