//! Whole texts, read from an input and written to an output.

ghost use Rattle.std.specs.Prelude.{◌≡◌, ◌+◌, ◌-◌, ◌^◌, ◌<◌, ◌≤◌, ◌↔◌, ◌++◌, Some, take, drop, length, vec_len, option_map};
ghost use Rattle.std.specs.Prelude.{IfOk, IfSome, OnOk, OnErr, IsErrOf};
ghost use Rattle.devices.specs.Devices.{Reads, TakesBeginning, joined_text, most_read, HoldsText};
ghost use Rattle.devices.specs.declared.text.ReadTextError.TheVariants.{Fault as FaultError, Memory};

use crate::OutOfMemory;
use crate::device::{Fault, Input, Output};
use std::alloc::Global;
use std::fmt;
use thiserror::Error;

/// The greatest number of bytes of a text, 1,048,576: a longer one is refused.
pub const TEXT_LIMIT: usize = 1_048_576;

// the greatest first size of the buffer, in bytes
const FIRST_READ: usize = 8_192;

/// Why a text was not read.
#[derive(Clone, Copy, Debug, PartialEq, Eq, Error)]
pub enum ReadTextError {
    /// A read failed.
    Fault,
    /// Memory ran out. This says nothing of the input.
    Memory,
}

impl fmt::Display for ReadTextError {
    ghost use Rattle.std.specs.Prelude.{Some};
    ghost use Rattle.devices.specs.Devices.{told_of};

    ghost output = { λ error. Some (told_of error) };

    fn fmt<W: fmt::Write>(&self, f: &mut fmt::Formatter<W>) -> fmt::Result {
        f.write_str(match self {
            ReadTextError::Fault => "cannot read",
            ReadTextError::Memory => "out of memory",
        })
    }
}

impl From<Fault> for ReadTextError {
    ghost from_gives = { λ _ e. e ≡ FaultError };

    fn from(_e: Fault) -> ReadTextError {
        ReadTextError::Fault
    }
}

impl From<OutOfMemory> for ReadTextError {
    ghost from_gives = { λ _ e. e ≡ Memory };

    fn from(_e: OutOfMemory) -> ReadTextError {
        ReadTextError::Memory
    }
}

// Reads into a buffer after its first bytes.
fn read_after<I: Input>(input: &mut I, buffer: &mut [u8], filled: usize) -> Result<usize, Fault>
    requires fresh { I.failed input.old < 2 ^ 64 - 1 }
    requires room { filled ≤ length buffer.old }
    ensures reads { IfOk result (λ n. Reads (I.left input.old) (I.left input.new) (drop filled buffer.new) n) }
    ensures within { IfOk result (λ n. filled + n ≤ length buffer.new) }
    ensures kept { take filled buffer.new ≡ take filled buffer.old }
    ensures fine { OnOk result (I.failed input.new ≡ I.failed input.old) }
    ensures fault { OnErr result (I.failed input.new ≡ I.failed input.old + 1) }
{
    input.read(&mut buffer[filled..])
}

// Doubles a buffer that is full, up to what is read at most.
fn make_room(buffer: &mut Vec<u8>, filled: usize, most: usize) -> Result<(), OutOfMemory>
    requires some { 0 < vec_len buffer.old }
    requires within { filled ≤ vec_len buffer.old }
    requires below { filled < most }
    requires bound { vec_len buffer.old ≤ most }
    requires fits { most ≤ 2 ^ 32 }
    ensures room { OnOk result (filled < vec_len buffer.new) }
    ensures bound { vec_len buffer.new ≤ most }
    ensures kept { take filled buffer.new.items ≡ take filled buffer.old.items }
{
    if filled == buffer.len() {
        buffer.resize((2 * filled).min(most), 0)?;
    }
    Ok(())
}

// Reads after the first bytes of a buffer, which grows where it is full.
fn read_more<I: Input>(
    input: &mut I,
    buffer: &mut Vec<u8>,
    filled: usize,
    most: usize,
) -> Result<usize, ReadTextError>
    requires fresh { I.failed input.old < 2 ^ 64 - 1 }
    requires some { 0 < vec_len buffer.old }
    requires within { filled ≤ vec_len buffer.old }
    requires below { filled < most }
    requires bound { vec_len buffer.old ≤ most }
    requires fits { most ≤ 2 ^ 32 }
    ensures reads { IfOk result (λ n. Reads (I.left input.old) (I.left input.new) (drop filled buffer.new.items) n) }
    ensures within { IfOk result (λ n. filled + n ≤ vec_len buffer.new) }
    ensures room { OnOk result (filled < vec_len buffer.new) }
    ensures kept { OnOk result (take filled buffer.new.items ≡ take filled buffer.old.items) }
    ensures bound { OnOk result (vec_len buffer.new ≤ most) }
    ensures fine { OnOk result (I.failed input.new ≡ I.failed input.old) }

    ensures fault { IsErrOf result ReadTextError.Fault → I.failed input.new ≡ I.failed input.old + 1 }
    ensures memory { IsErrOf result ReadTextError.Memory → I.failed input.new ≡ I.failed input.old }
{
    make_room(buffer, filled, most)?;
    let n = read_after(input, buffer, filled)?;
    Ok(n)
}

// Reads to the end of the input, or as much as is read at most, into a buffer that grows.
fn fill<I: Input>(input: &mut I, buffer: &mut Vec<u8>, most: usize) -> Result<usize, ReadTextError>
    requires fresh { I.failed input.old < 2 ^ 64 - 1 }
    requires some { 0 < vec_len buffer.old }
    requires bound { vec_len buffer.old ≤ most }
    requires fits { most ≤ 2 ^ 32 }
    ensures read { IfOk result (λ n. HoldsText most (I.left input.old) (I.left input.new) buffer.new.items n) }
    ensures within { IfOk result (λ n. n ≤ most) }
    ensures fine { OnOk result (I.failed input.new ≡ I.failed input.old) }

    ensures fault { IsErrOf result ReadTextError.Fault → I.failed input.new ≡ I.failed input.old + 1 }
    ensures memory { IsErrOf result ReadTextError.Memory → I.failed input.new ≡ I.failed input.old }
{
    let mut filled = 0;
    while filled < most {
        let n = read_more(input, buffer, filled, most)?;
        if n == 0 {
            break;
        }
        filled += n;
    }
    Ok(filled)
}

/// Reads an input to its end, or to one byte past 1,048,576, whichever comes first. After a fault it
/// makes no further call.
pub fn read_text<I: Input>(alloc: Global, input: &mut I) -> Result<Vec<u8>, ReadTextError>
    requires { I.failed input.old < 2 ^ 64 - 1 }
    ensures text { IfOk result (λ text. IfSome (I.left input.old) (λ bytes. text.items ≡ take most_read bytes)) }
    ensures rest { OnOk result (IfSome (I.left input.old) (λ bytes. I.left input.new ≡ Some (drop most_read bytes))) }
    ensures bound { IfOk result (λ text. vec_len text ≤ most_read) }
    ensures fine { OnOk result (I.failed input.new ≡ I.failed input.old) }

    ensures fault { IsErrOf result ReadTextError.Fault ↔ (I.failed input.new ≡ I.failed input.old + 1) }
    ensures memory { IsErrOf result ReadTextError.Memory → I.failed input.new ≡ I.failed input.old }
{
    read_text_of(alloc, input, TEXT_LIMIT)
}

/// Reads an input to its end or up to `most + 1` bytes, whichever comes first; `most` is less than 2^32. After a fault it makes
/// no further call.
pub fn read_text_of<I: Input>(
    alloc: Global,
    input: &mut I,
    most: usize,
) -> Result<Vec<u8>, ReadTextError>
    requires fresh { I.failed input.old < 2 ^ 64 - 1 }
    requires fits { most < 2 ^ 32 }
    ensures text { IfOk result (λ text. IfSome (I.left input.old) (λ bytes. text.items ≡ take (most + 1) bytes)) }
    ensures rest { OnOk result (IfSome (I.left input.old) (λ bytes. I.left input.new ≡ Some (drop (most + 1) bytes))) }
    ensures bound { IfOk result (λ text. vec_len text ≤ most + 1) }
    ensures fine { OnOk result (I.failed input.new ≡ I.failed input.old) }

    ensures fault { IsErrOf result ReadTextError.Fault ↔ (I.failed input.new ≡ I.failed input.old + 1) }
    ensures memory { IsErrOf result ReadTextError.Memory → I.failed input.new ≡ I.failed input.old }
{
    let mut buffer = vec![in alloc; 0u8; FIRST_READ.min(most + 1)]?;
    let filled = fill(input, &mut buffer, most + 1)?;
    buffer.truncate(filled);
    Ok(buffer)
}

/// Writes a whole text and flushes, so that all of it is handed on. After a fault it makes no further
/// call, and what was taken is a beginning of the text.
pub fn write_text<O: Output>(output: &mut O, text: &[u8]) -> Result<(), Fault>
    requires { O.failed output.old < 2 ^ 64 - 1 }
    ensures whole { OnOk result (O.taken output.new ≡ option_map (λ before. before ++ text.now) (O.taken output.old)) }
    ensures handed { OnOk result (O.handed output.new ≡ O.taken output.new) }
    ensures fine { OnOk result (O.failed output.new ≡ O.failed output.old) }

    ensures fault { OnErr result (O.failed output.new ≡ O.failed output.old + 1) }
    ensures beginning { OnErr result (TakesBeginning (O.taken output.old) (O.taken output.new) text.now) }
{
    give(output, text)?;
    output.flush()
}

/// Writes whole texts, one after another, and flushes, so that all of them are handed on. After a fault it makes
/// no further call, and what was taken is a beginning of the texts.
pub fn write_texts<O: Output>(output: &mut O, texts: &[Vec<u8>]) -> Result<(), Fault>
    requires { O.failed output.old < 2 ^ 64 - 1 }
    ensures whole { OnOk result (O.taken output.new ≡ option_map (λ before. before ++ joined_text texts.now) (O.taken output.old)) }
    ensures handed { OnOk result (O.handed output.new ≡ O.taken output.new) }
    ensures fine { OnOk result (O.failed output.new ≡ O.failed output.old) }

    ensures fault { OnErr result (O.failed output.new ≡ O.failed output.old + 1) }
    ensures beginning { OnErr result (TakesBeginning (O.taken output.old) (O.taken output.new) (joined_text texts.now)) }
{
    for text in texts {
        give(output, text.as_slice())?;
    }
    output.flush()
}

// Writes a whole text, which the output may keep back.
fn give<O: Output>(output: &mut O, text: &[u8]) -> Result<(), Fault>
    requires { O.failed output.old < 2 ^ 64 - 1 }
    ensures whole { OnOk result (O.taken output.new ≡ option_map (λ before. before ++ text.now) (O.taken output.old)) }
    ensures fine { OnOk result (O.failed output.new ≡ O.failed output.old) }

    ensures fault { OnErr result (O.failed output.new ≡ O.failed output.old + 1) }
    ensures beginning { OnErr result (TakesBeginning (O.taken output.old) (O.taken output.new) text.now) }
{
    let mut rest = text;
    while !rest.is_empty() {
        let n = output.write(rest)?;
        rest = &rest[n..];
    }
    Ok(())
}
