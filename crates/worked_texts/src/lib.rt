//! Machines and loops as texts, worked by hand, which the tests of several crates read.
#![tactic(auto)]

mod loops;
mod machines;

pub use loops::{
    ABS, ACC, ACCO, ALTS, CHAIN, EDGE, FAR, FORCE, HOLD, KEEP, LAST, LATE, LONE, POW, SHIFT, SUM,
    THREE, WRAP,
};
pub use machines::{M1, M2, M3, M4, M5, M6, M7, M8, TWO_REGISTERS};
