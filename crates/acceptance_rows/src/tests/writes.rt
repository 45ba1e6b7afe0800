//! Outputs that fail.

use super::given::LINES;
use modsched::{Bytes, FaultyOutput, engine, parse_line};
use std::alloc::Global;
use std::process::Abort;
use std::thread::Threads;

/// More bytes than any of these lines writes.
pub(super) const ALL: usize = 4096;

/// The number that a line exits with for these texts, where its output takes 7 bytes a write and `room` in all. The first `room` bytes
/// of `out` are written, or all of it where it is shorter; and nothing where a text is refused.
pub(super) fn write_to(
    rt: &(impl Abort + Threads + Sync),
    alloc: Global,
    words: &[&str],
    texts: (&[u8], &[u8]),
    out: &str,
    room: usize,
    can_flush: bool,
) -> u8 {
    let command = parse_line(alloc, words).expect(rt, "a command");
    let mut first = Bytes::new(texts.0);
    let mut last = Bytes::new(texts.1);
    let mut output = FaultyOutput::new(alloc, 7, room, can_flush).expect(rt, "an output");
    let status = engine(rt, alloc, &command, &mut first, &mut last, &mut output);
    let number = status.number();
    let is_refused = number == 4 || number == 5;
    let out = out.as_bytes();
    let took = if is_refused { 0 } else { room.min(out.len()) };
    assert!(rt; output.as_slice() == &out[..took], "room for {room}");
    number
}

#[test]
fn writes_a_beginning_of_each_length(rt: HostRuntime) {
    for line in &LINES {
        let texts = (line.first.as_bytes(), line.last.as_bytes());
        for room in 0..=line.out.len() {
            let wanted = if room < line.out.len() { 6 } else { 0 };
            let number = write_to(&rt, rt.alloc(), line.words, texts, line.out, room, true);
            assert_eq!(rt; number, wanted, "room for {room}");
        }
    }
}

#[test]
fn fails_to_flush(rt: HostRuntime) {
    for line in &LINES {
        let texts = (line.first.as_bytes(), line.last.as_bytes());
        let number = write_to(&rt, rt.alloc(), line.words, texts, line.out, ALL, false);
        assert_eq!(rt; number, 6);
    }
}
