//! Units by their names.

ghost use Rattle.std.specs.Prelude.{◌≡◌, ◌<◌, ◌≤◌, ◌++◌, ℕ, List, [], length, OnOk};
ghost use Rattle.std.specs.List.{slice_index_or};
ghost use Rattle.machine_data.specs.declared.limits.TheConstants.{MAX_UNITS};

use machine_data::{Machine, OutOfMemory};
use writing::Text;

/// Units with what they are called.
pub trait UnitNames {
    /// How many units there are.
    ghost number: { Self → ℕ };

    /// What the unit with a number is called.
    ghost name: { Self → ℕ → List ℕ };

    /// How many units there are: at most 64.
    fn count(&self) -> usize
        ensures value { result ≡ number self.now }
        ensures few { result ≤ MAX_UNITS };

    /// Appends what a unit is called.
    ///
    /// # Errors
    /// Memory ran out. The text is left with a part of that.
    fn push_name(&self, text: &mut Vec<u8>, unit: usize) -> Result<(), OutOfMemory>
        requires there { unit < number self.now }
        ensures ok { OnOk result (text.new.items ≡ text.old.items ++ name self.now unit) };
}

impl UnitNames for Machine {
    ghost number = { λ machine. length machine.units };

    ghost name = { λ machine unit. slice_index_or machine.units unit [] };

    fn count(&self) -> usize {
        self.units().len()
    }

    fn push_name(&self, text: &mut Vec<u8>, unit: usize) -> Result<(), OutOfMemory> {
        text.push_piece(self.units()[unit].as_str())
    }
}
