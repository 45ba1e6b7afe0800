//! Lines, what their files hold and what they write.

use worked_texts::{ACC, M1};

/// A line, what its inputs hold and what it writes for that, and what the input is told as that can't be read. A line that reads no
/// first input has nothing there.
#[derive(Clone, Copy)]
pub(super) struct Line {
    pub(super) words: &'static [&'static str],
    pub(super) first: &'static str,
    pub(super) last: &'static str,
    pub(super) out: &'static str,
    pub(super) unread_first: &'static str,
    pub(super) unread_last: &'static str,
}

pub(super) const LINES: [Line; 6] = [
    Line {
        words: &["bounds", "m.toml", "l.txt"],
        first: M1,
        last: ACC,
        out: "loop acc ops 3 res 2 rec 1 mii 2\nloops 1\n",
        unread_first: "machine",
        unread_last: "loops",
    },
    Line {
        words: &["plain", "l.txt", "--trip", "3"],
        first: "",
        last: ACC,
        out: "loop acc trip 3\nb[0] 1\nb[1] 3\nb[2] 6\nloops 1\n",
        unread_first: "",
        unread_last: "loops",
    },
    Line {
        words: &["schedule", "m.toml", "l.txt"],
        first: M1,
        last: ACC,
        out: ACC_LISTING,
        unread_first: "machine",
        unread_last: "loops",
    },
    Line {
        words: &["run", "m.toml", "l.txt", "--trip", "3"],
        first: M1,
        last: ACC,
        out: "loop acc trip 3\nb[0] 1\nb[1] 3\nb[2] 6\nloops 1 met 1 failed 0\n",
        unread_first: "machine",
        unread_last: "loops",
    },
    Line {
        words: SOLVE,
        first: "",
        last: SUM,
        out: SUM_SOLVED,
        unread_first: "",
        unread_last: "problems",
    },
    Line {
        words: &["check", "p.txt", "s.txt"],
        first: SUM,
        last: SUM_SOLUTION,
        out: "sum ok ii 3 stages 1\n# problems 1 met 1 failed 0\n",
        unread_first: "problems",
        unread_last: "solutions",
    },
];

pub(super) const SOLVE: &[&str] = &["solve", "p.txt"];

/// The listing of `ACC` on `M1`.
const ACC_LISTING: &str = "loop acc ops 3 res 2 rec 1 mii 2 ii 2 stages 3\n\
    pre r2 0\n\
    0: load r0 a[k+0] ?0\n\
    1: add r2 r3 r1 ?1 | store b[k-2] r3 ?2\n\
    loops 1 met 1 failed 0\n";

/// A problem whose one operation reads in each iteration what the last one has made, 3 cycles after its issue: its interval is 3.
pub(super) const SUM: &str = "machine m
units u
file r rotating 4
kind short latency 3 | u
problem sum
op add short
value s of add lands 3 in r out
read add s distance 1
end
";

/// What solving it prints.
pub(super) const SUM_SOLVED: &str = "# sum ops 1 res 1 rec 3 mii 3
# circuit add takes 3 cycles over 1 iterations
# full u
solution sum ii 3 # stages 1
op add time 0 by 0 # row 0 stage 0: u; reads r.1, writes r.0
value s number 0 # r: live 3 to 3
# initial r.1 s distance 1
# file r max_live 1 of 4
end
# problems 1 met 1 failed 0
";

/// A solution of it.
const SUM_SOLUTION: &str = "solution sum ii 3
op add time 0 by 0
value s number 0
end
";
