//! Texts of machines and loops.

pub(super) use worked_texts::{
    ABS, ACC, ACCO, ALTS, CHAIN, EDGE, FAR, FORCE, HOLD, KEEP, LAST, LATE, LONE, M1, M2, M4, POW,
    SHIFT, SUM, WRAP,
};
