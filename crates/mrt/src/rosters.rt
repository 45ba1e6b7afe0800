//! Operations, their alternatives and their placements.

pub(crate) mod choices;
pub(crate) mod kinds;
pub(crate) mod marks;
pub(crate) mod roster;
pub(crate) mod slot;
