//! The memory before a run, and why a run is refused.

pub(crate) mod run;
