//! Operations, each with its alternatives, and those of a list.

ghost use Rattle.std.specs.Prelude.{◌≡◌, ◌<◌, List, [], length};
ghost use Rattle.std.specs.List.{slice_index_or};
ghost use Rattle.machine_data.specs.Alternative.{AreAlternatives};
ghost use Rattle.machine_data.specs.declared.alternative.Row.{Row};

use machine_data::{Alternative, Alternatives};

/// Operations with the alternatives of each.
pub trait Offers {
    /// The alternatives of each operation.
    ghost operations: { Self → List (List (List Row)) };

    /// Each operation has alternatives.
    ghost sound: { Self → Type 0 };

    /// The number of operations.
    fn count(&self) -> usize
        ensures { result ≡ length (operations self.now) };

    /// The alternatives of an operation.
    fn alternatives(&self, operation: usize) -> &[Alternative]
        requires there { operation < length (operations self.now) }
        requires sound { sound self.now }
        ensures value { result.now ≡ slice_index_or (operations self.now) operation [] }
        ensures well_formed { AreAlternatives result.now };
}

/// Operations by a list of the alternatives of each.
#[derive(Clone, Copy)]
pub struct OfList<'a> {
    /// The alternatives of each operation.
    pub operations: &'a [Alternatives],
}

impl<'a> Offers for OfList<'a> {
    ghost operations = { λ o. o.operations.now };

    ghost sound = { λ o. Unit {0} };

    fn count(&self) -> usize {
        self.operations.len()
    }

    fn alternatives(&self, operation: usize) -> &[Alternative] {
        self.operations[operation].as_slice()
    }
}
