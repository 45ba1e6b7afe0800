//! Texts of a machine and of loops.

use std::alloc::Global;
use std::fmt::Write;
use std::process::Abort;
pub(super) use worked_texts::{THREE as LOOPS, TWO_REGISTERS as MACHINE};

/// Their listing, worked out by hand: the sum lacks a register at the intervals 2 and 3.
pub(super) const LISTING: &str = "loop acc ops 3 res 2 rec 1 mii 2 ii 4 stages 2\n\
    pre r1 0\n\
    0: load r0 a[k+0] ?0\n\
    1: store b[k-1] r1 ?1\n\
    2:\n\
    3: add r0 r1 r0 ?0\n\
    loop chain ops 3 res 2 rec 5 mii 5 ii 5 stages 1\n\
    0: load r0 a[k+0] ?0\n\
    1:\n\
    2:\n\
    3: add r0 r0 1 ?0\n\
    4: store a[k+1] r0 ?0\n\
    loop shift ops 2 res 2 rec 1 mii 2 ii 2 stages 2\n\
    0: load r0 a[k+1] ?0\n\
    1: store a[k-1] r1 ?1\n\
    loops 3 met 3 failed 0\n";

/// The lines of a running sum after its name.
pub(super) const SUM: &str = "\n\
    array a = 1 2 3\n\
    array b =\n\
    init s@1 = 0\n\
    t = load a[i]\n\
    s = add s@1 t\n\
    store b[i] s\n\
    end\n";

/// What its listing has after its name, as above.
pub(super) const SUM_LISTED: &str = " ops 3 res 2 rec 1 mii 2 ii 4 stages 2\n\
    pre r1 0\n\
    0: load r0 a[k+0] ?0\n\
    1: store b[k-1] r1 ?1\n\
    2:\n\
    3: add r0 r1 r0 ?0\n";

/// As many loops, each with a name of its own between the text before it and its lines.
pub(super) fn named(
    rt: &impl Abort,
    alloc: Global,
    before: &str,
    lines: &str,
    times: usize,
) -> String {
    let mut text = String::new(alloc);
    for number in 0..times {
        write!(text, "{before}loop sum{number}{lines}").expect(rt, "memory");
    }
    text
}
