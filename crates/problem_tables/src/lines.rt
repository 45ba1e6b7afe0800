//! What the lines of the machine under way and of the problem under way say.

pub(crate) mod kinds;
pub(crate) mod machine;
pub(crate) mod orders;
pub(crate) mod problem;
