//! What no clause says: that kernels are accepted and refused as the rules are meant, what they leave, and what
//! kernels with a lifetime cut short would do.

mod briefs;
mod halves;
mod numbers;
mod refused;
mod runs;
