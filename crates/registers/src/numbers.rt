//! Numbers of registers for values: whether they are lawful, which values meet where they are not, and the least ones.

mod gaps;
pub(crate) mod lawful;
pub(crate) mod least;
pub(crate) mod meetings;
mod shift;
