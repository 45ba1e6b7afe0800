//! Operations that have the same alternatives.

ghost use Rattle.std.specs.Prelude.{◌≡◌, [], MatchOption, slice_index_or};
ghost use Rattle.std.specs.List.{All, Contains};
ghost use Rattle.machine_data.specs.Alternative.{AreAlternatives};
ghost use Rattle.mrt.specs.declared.rosters.kinds.Kind.{Kind};
ghost use Rattle.mrt.specs.inner.Rosters.{IsKind, first_row};

use machine_data::{Alternative, Alternatives, Row};

/// Operations that have the same alternatives, by the first of them. Most others are told apart by the first row
/// alone.
#[derive(Clone, Copy, Default)]
pub(crate) struct Kind {
    /// The operation's number.
    pub(crate) operation: usize,
    /// The first row of its first alternative.
    pub(crate) first: Row,
}

impl Kind {
    /// The kind of an operation with these alternatives.
    pub(crate) fn new(operation: usize, alternatives: &[Alternative]) -> Kind
        requires { AreAlternatives alternatives.now }
        ensures operation { result.operation ≡ operation }
        ensures first { result.first ≡ first_row alternatives.now }
    {
        Kind {
            operation,
            first: first_row(alternatives),
        }
    }
}

/// The kind of some operations that has these alternatives.
pub(crate) fn of_kind(
    operations: &[Alternatives],
    kinds: &[Kind],
    alternatives: &Alternatives,
) -> Option<Kind>
    requires kinds { All (IsKind operations.now) kinds.now }
    ensures { MatchOption result
        ((kind : Kind) → Contains kinds.now kind → slice_index_or operations.now kind.operation [] ≡ alternatives.now → ⊥)
        (λ kind. Contains kinds.now kind × (slice_index_or operations.now kind.operation [] ≡ alternatives.now)) }
{
    let first = first_row(alternatives.as_slice());
    for kind in kinds {
        if kind.first == first && operations[kind.operation].are_same(alternatives) {
            return Some(*kind);
        }
    }
    None
}

/// The first row of the first alternative.
fn first_row(alternatives: &[Alternative]) -> Row
    requires { AreAlternatives alternatives.now }
    ensures { result ≡ first_row alternatives.now }
{
    alternatives[0].rows()[0]
}
