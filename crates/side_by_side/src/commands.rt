//! What each command writes.

pub(crate) mod documents;
pub(crate) mod explaining;
pub(crate) mod listings;
pub(crate) mod objects;
pub(crate) mod scheduling;
pub(crate) mod texts;
pub(crate) mod varying;
