//! The standard output of a system whose writes are interrupted, take a part, or fail.

ghost use Rattle.std.specs.Prelude.{◌≤◌, length, IfOk};

use devices::{Output, StandardOutput, write_text};
use std::cell::Cell;
use std::fmt::Display;
use std::io;
use std::io::ErrorKind;

/// What a call of a write answers.
#[derive(Clone, Copy)]
enum Answer {
    /// It takes this number of bytes, or all where there are fewer.
    Takes(usize),
    /// A signal interrupts it.
    IsInterrupted,
    /// The device is full.
    Fails,
}

use Answer::{Fails, IsInterrupted, Takes};

const TEXT: &[u8] = b"loop acc trip 3\n";

/// A system whose writes answer from a list, over and over, and take the bytes of the text alone, in their order.
#[derive(Drop)]
struct Scripted {
    answers: &'static [Answer],
    calls: Cell<usize>,
    taken: Cell<usize>,
}

impl Scripted {
    /// The answer of the next call.
    fn next_answer(&self) -> Answer {
        let call = self.calls.get();
        self.calls.set(call.wrapping_add(1));
        match self.answers.len() {
            0 => Fails,
            count => self.answers.get(call % count).copied().unwrap_or(Fails),
        }
    }

    /// Takes the first of these bytes, `most` at most.
    fn take(&self, bytes: &[u8], most: usize) -> io::Result<usize>
        ensures { IfOk result (λ n. n ≤ length bytes.now) }
    {
        let taken = self.taken.get();
        if TEXT.get(taken..) != Some(bytes) {
            return Err(io::Error::from(ErrorKind::InvalidData));
        }
        let count = bytes.len().min(most);
        self.taken.set(taken.wrapping_add(count));
        Ok(count)
    }
}

impl Print for Scripted {
    fn print<D: Display + Drop>(&self, _value: D) -> io::Result<()> {
        Err(io::Error::from(ErrorKind::Unsupported))
    }

    fn println<D: Display + Drop>(&self, _value: D) -> io::Result<()> {
        Err(io::Error::from(ErrorKind::Unsupported))
    }

    fn write_all(&self, _bytes: &[u8]) -> io::Result<()> {
        Err(io::Error::from(ErrorKind::Unsupported))
    }

    fn write_some(&self, bytes: &[u8]) -> io::Result<usize> {
        match self.next_answer() {
            Takes(most) => self.take(bytes, most),
            IsInterrupted => Err(io::Error::from(ErrorKind::Interrupted)),
            Fails => Err(io::Error::from(ErrorKind::StorageFull)),
        }
    }
}

/// How many writes of the output of a system fail: 99 where a text counts as written although one failed, or as not written although none did.
fn failed(system: &Scripted) -> u64 {
    let mut output = StandardOutput::new(system);
    let is_written = write_text(&mut output, TEXT).is_ok();
    let faults = output.faults();
    if is_written == (faults == 0) {
        faults
    } else {
        99
    }
}

/// What a script comes to: how many calls there are, how many bytes they take, and how many writes of the output fail.
fn written(answers: &'static [Answer]) -> (usize, usize, u64) {
    let system = Scripted {
        answers,
        calls: Cell::new(0),
        taken: Cell::new(0),
    };
    let faults = failed(&system);
    (system.calls.get(), system.taken.get(), faults)
}

/// A script, with how many calls there are, how many bytes they take, and how many writes of the output fail.
type Script = (&'static [Answer], (usize, usize, u64));

/// Scripts by which all 16 bytes are taken.
const SHORT: &[Script] = &[
    (&[Takes(16)], (1, 16, 0)),
    (&[Takes(3)], (6, 16, 0)),
    (&[Takes(1), Takes(5)], (6, 16, 0)),
    (
        &[
            IsInterrupted,
            Takes(3),
            IsInterrupted,
            IsInterrupted,
            Takes(4),
        ],
        (12, 16, 0),
    ),
];

/// Scripts with a write that fails. A write that is interrupted is tried 64 times.
const FAILING: &[Script] = &[
    (&[Fails], (1, 0, 1)),
    (&[Takes(0)], (1, 0, 1)),
    (&[IsInterrupted], (64, 0, 1)),
    (&[Takes(3), Takes(3), Fails], (3, 6, 1)),
    (&[Takes(9), IsInterrupted, Takes(0)], (3, 9, 1)),
];

// (The proof of a function repeats the tables that it names, so that the tests name none.)
fn short_writes() -> &'static [Script] {
    SHORT
}

fn failing_writes() -> &'static [Script] {
    FAILING
}

/// A script comes to what it has to.
fn is_written(script: &Script) -> bool {
    written(script.0) == script.1
}

#[test]
fn writes_on_after_a_short_write(rt: HostRuntime) {
    for script in short_writes() {
        assert!(rt; is_written(script), "{}", script.1.0);
    }
}

#[test]
fn tells_of_a_failed_write(rt: HostRuntime) {
    for script in failing_writes() {
        assert!(rt; is_written(script), "{}", script.1.0);
    }
}
