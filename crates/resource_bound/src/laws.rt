//! What the choices tell of the resource-constrained lower bound: a law, stated by the contract of a function
//! that does nothing.

ghost use Rattle.resource_bound.specs.Choices.{FullestUseIsBound};

/// The use of the unit that the choices use most is the resource-constrained lower bound.
pub fn fullest_use_is_bound()
    ensures { FullestUseIsBound }
{}
