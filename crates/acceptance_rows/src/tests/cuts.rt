//! Texts that are cut after each byte.

use super::given::{LINES, SOLVE, SUM, SUM_SOLVED};
use super::writes::{ALL, write_to};
use std::process::Abort;
use std::test::Fail;
use worked_texts::{ACC, M1};

/// What each of the first lines, those over loops, writes for a text without a loop.
const NONE: [&str; 4] = [
    "loops 0\n",
    "loops 0\n",
    "loops 0 met 0 failed 0\n",
    "loops 0 met 0 failed 0\n",
];

// A loop text that is cut is a text without loops, whole but for its last line feed, or refused.
#[test]
fn cuts_loop_texts(rt: HostRuntime) {
    let text = ACC.as_bytes();
    for (line, none) in LINES.iter().zip(&NONE) {
        for end in 0..=text.len() {
            let (out, wanted) = match end {
                0 => (*none, 0),
                _ if end + 1 >= text.len() => (line.out, 0),
                _ => (line.out, 5),
            };
            let texts = (M1.as_bytes(), &text[..end]);
            let number = write_to(&rt, rt.alloc(), line.words, texts, out, ALL, true);
            assert_eq!(rt; number, wanted, "cut after {end} for {out}");
        }
    }
}

// A machine text that is cut after a whole table is a machine without the other ones, which the loop needs. Cut elsewhere it is
// refused, unless it is whole but for its last line feed.
#[test]
fn cuts_machine_texts(rt: HostRuntime) {
    let text = M1.as_bytes();
    for (line, _) in LINES.iter().zip(&NONE) {
        for end in 0..=text.len() {
            let cut = &text[..end];
            let wanted = if line.unread_first.is_empty() || end + 1 >= text.len() {
                0
            } else if cut.trim_ascii_end().ends_with(b"]]") {
                5
            } else {
                4
            };
            let texts = (cut, ACC.as_bytes());
            let number = write_to(&rt, rt.alloc(), line.words, texts, line.out, ALL, true);
            assert_eq!(rt; number, wanted, "cut after {end}");
        }
    }
}

// A text of problems that is cut is a text without problems, one with this problem, or refused. One without problems is either whole
// lines, or cut in a word that needs no other after it.
#[test]
fn cuts_texts_of_problems(rt: HostRuntime) -> Result<(), Fail> {
    let text = SUM.as_bytes();
    let head = SUM.find("problem").ok_or("a problem")?;
    for end in 0..=text.len() {
        let out = if end > head {
            SUM_SOLVED
        } else {
            "# problems 0 met 0 failed 0\n"
        };
        let texts = (b"".as_slice(), &text[..end]);
        let number = write_to(&rt, rt.alloc(), SOLVE, texts, out, ALL, true);
        let is_whole = end + 1 >= text.len();
        let may_be_whole = is_whole || end <= head;
        assert!(rt; number == 4 || may_be_whole, "cut after {end}");
        assert!(rt; number == 0 || !is_whole, "cut after {end}");
        assert!(rt; number == 0 || number == 4, "cut after {end}");
    }
    Ok(())
}
