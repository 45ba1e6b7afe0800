//! Whole texts, read and written.

ghost use Rattle.std.specs.Prelude.{◌≡◌};

use devices::{FileInput, Input, Output, ReadTextError, read_text, read_text_of, write_text};
use machine::OutOfMemory;
use memory_devices::{Bytes, FaultyInput, FaultyOutput, TakenBytes};
use std::alloc::Global;
use std::process::Abort;

// bytes of which neighbours differ
fn pattern(alloc: Global, len: usize) -> Result<Vec<u8>, OutOfMemory> {
    let mut bytes = Vec::with_capacity(alloc, len)?;
    for i in 0..len {
        bytes.push((i % 251) as u8)?;
    }
    Ok(bytes)
}

/// How many bytes there are, how many a text may have, and how many are read: one past the limit at most. Of a buffer the first size is 65,536 bytes.
type Reading = (usize, u32, usize);

const READ: &[Reading] = &[
    (0, 150_000, 0),
    (1, 150_000, 1),
    (65_535, 150_000, 65_535),
    (65_536, 150_000, 65_536),
    (65_537, 150_000, 65_537),
    (149_999, 150_000, 149_999),
    (150_000, 150_000, 150_000),
    (150_001, 150_000, 150_001),
    (150_002, 150_000, 150_001),
    (200_000, 0, 1),
    (200_000, 1, 2),
    (200_000, 65_534, 65_535),
    (200_000, 65_535, 65_536),
    (200_000, 65_536, 65_537),
    (200_000, 199_998, 199_999),
    (200_000, 199_999, 200_000),
    (200_000, 200_000, 200_000),
    (200_000, 16_777_216, 200_000),
];

/// Of these bytes the first `want` are read, and the others are left.
fn is_read(rt: &impl Abort, alloc: Global, bytes: &[u8], most: u32, want: usize) -> bool {
    let mut input = Bytes::new(bytes);
    let text = read_text_of(alloc, &mut input, most as usize).expect(rt, "a text");
    bytes.split_at_checked(want) == Some((text.as_slice(), input.rest()))
}

fn readings() -> &'static [Reading] {
    READ
}

/// A beginning of these bytes is read as a row says.
fn comes_in(rt: &impl Abort, alloc: Global, all: &[u8], row: &Reading) -> bool {
    let bytes = all.get(..row.0).expect(rt, "a beginning");
    is_read(rt, alloc, bytes, row.1, row.2)
}

#[test]
fn reads_up_to_a_byte_past_the_limit(rt: HostRuntime) {
    let all = pattern(rt.alloc(), 200_000).expect(&rt, "memory");
    for row in readings() {
        assert!(rt; comes_in(&rt, rt.alloc(), all.as_slice(), row), "{row:?}");
    }
}

/// A text of a machine or of loops has 1,048,576 bytes at most.
#[test]
fn reads_a_byte_past_the_limit_of_texts(rt: HostRuntime) {
    let all = pattern(rt.alloc(), 1_048_578).expect(&rt, "memory");
    let mut input = Bytes::new(all.as_slice());
    let text = read_text(rt.alloc(), &mut input).expect(&rt, "a text");
    assert!(rt; text.len() == 1_048_577 && input.rest().len() == 1);
    assert!(rt; all.as_slice().starts_with(text.as_slice()));
}

/// How many bytes of 30 a read gives at most, and after how many reads one fails, with how many bytes are left then, where it does.
const IN_PARTS: &[(usize, Option<u64>, Option<usize>)] = &[
    (1, None, None),
    (7, None, None),
    (29, None, None),
    (10, Some(0), Some(30)),
    (10, Some(1), Some(20)),
    (10, Some(2), Some(10)),
    (10, Some(3), Some(0)),
    (10, Some(4), None),
];

/// A text that is read in parts, and how many bytes are left where a read fails.
fn left(
    rt: &impl Abort,
    alloc: Global,
    bytes: &[u8],
    stride: usize,
    fault: Option<u64>,
) -> Option<usize> {
    assert!(rt; 0 < stride);
    let mut input = FaultyInput::new(bytes, stride, fault);
    let text = read_text(alloc, &mut input);
    let left = input.rest().len();
    match text {
        Ok(text) => {
            assert!(rt; text.as_slice() == bytes && input.faults() == 0);
            None
        }
        Err(error) => {
            assert!(rt; error == ReadTextError::Fault && input.faults() == 1);
            Some(left)
        }
    }
}

#[test]
fn reads_in_parts(rt: HostRuntime) {
    let bytes = pattern(rt.alloc(), 30).expect(&rt, "memory");
    for (stride, fault, wanted) in IN_PARTS {
        let left = left(&rt, rt.alloc(), bytes.as_slice(), *stride, *fault);
        assert!(rt; left == *wanted, "{stride}, {fault:?}");
    }
    let many = pattern(rt.alloc(), 200_000).expect(&rt, "memory");
    assert!(rt; left(&rt, rt.alloc(), many.as_slice(), 4_096, None).is_none());
}

/// A path that no file can have: it can't be read, and one call fails.
#[test]
fn tells_of_a_path_with_a_zero(rt: HostRuntime) {
    let mut input = FileInput::new(&rt, "a\0b");
    let text = read_text(rt.alloc(), &mut input);
    assert!(rt; matches!(text, Err(ReadTextError::Fault)) && input.faults() == 1);
}

/// How many bytes are written, how many of them the output takes a write and in all, whether it can flush, and how many are taken. A call fails where the room is too
/// small or the output can't flush.
type Writing = (usize, usize, usize, bool, usize);

const WRITTEN: &[Writing] = &[
    (1_000, 1, 1_000, true, 1_000),
    (1_000, 7, 1_000, true, 1_000),
    (1_000, 999, 1_000, true, 1_000),
    (1_000, 1_000, 1_000, true, 1_000),
    (1_000, 1_001, 1_000, true, 1_000),
    (29, 4, 0, true, 0),
    (29, 4, 1, true, 1),
    (29, 4, 10, true, 10),
    (29, 4, 28, true, 28),
    (0, 4, 100, false, 0),
    (8, 4, 100, false, 8),
];

/// A write of a text to such an output leaves what it has to: these bytes are taken, and are handed on where no call fails.
fn is_written(text: &[u8], output: &mut FaultyOutput, taken: usize, is_well: bool) -> bool
    requires { output.old.1 ≡ 0 }
{
    let is_done = write_text(output, text).is_ok();
    let handed = if is_well { taken } else { 0 };
    is_done == is_well
        && output.faults() == u64::from(!is_well)
        && text.get(..taken) == Some(output.as_slice())
        && text.get(..handed) == Some(output.handed())
}

/// A beginning of these bytes is written as a row says.
fn leaves(rt: &impl Abort, alloc: Global, all: &[u8], row: &Writing) -> bool {
    let (len, stride, room, can_flush, taken) = *row;
    assert!(rt; 0 < stride && len <= all.len());
    let mut output = FaultyOutput::new(alloc, stride, room, can_flush).expect(rt, "memory");
    is_written(&all[..len], &mut output, taken, can_flush && len <= room)
}

// (The proof of a function repeats the tables that it names, so that the test names none.)
fn writings() -> &'static [Writing] {
    WRITTEN
}

#[test]
fn writes_up_to_a_fault(rt: HostRuntime) {
    let all = pattern(rt.alloc(), 1_000).expect(&rt, "memory");
    for row in writings() {
        assert!(rt; leaves(&rt, rt.alloc(), all.as_slice(), row), "{row:?}");
    }
}

#[test]
fn writes_to_memory(rt: HostRuntime) {
    let text = pattern(rt.alloc(), 1_000).expect(&rt, "memory");
    let mut output = TakenBytes::with_capacity(rt.alloc(), 1_000).expect(&rt, "memory");
    assert!(rt; write_text(&mut output, text.as_slice()).is_ok());
    assert!(rt; output.as_slice() == text.as_slice() && output.handed() == text.as_slice());
}
