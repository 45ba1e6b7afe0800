//! Devices in memory that fail, for tests.

ghost use Rattle.std.specs.Prelude.{◌≡◌, ◌+◌, ◌-◌, ◌^◌, ◌<◌, ◌≤◌, length, take, [], Some, None, IfOk, OnOk, OnErr};
ghost use Rattle.devices.specs.Devices.{Reads, Writes};
ghost use Rattle.memory_devices.specs.Faulty.{FaultyFlushes, FaultyReads, FaultyWrites};

use devices::{Fault, Input, OutOfMemory, Output};
use std::alloc::Global;
use std::marker::Model;

/// An input over bytes in memory that gives a few bytes a read, and of whose reads one may fail.
/// Contracts see the bytes that are left, how many reads failed, and how it reads on.
#[derive(Drop)]
pub struct FaultyInput<'a> {
    rest: &'a [u8],
    stride: usize,
    reads_to_fault: Option<u64>,
    faults: u64,
}

impl<'a> Model for FaultyInput<'a> {
    ghost use Rattle.std.specs.Prelude.{◌<◌};
    ghost use Rattle.memory_devices.specs.Faulty.{FaultyLeft};

    ghost Value = { FaultyLeft };

    ghost view = { λ i. (i.rest.now, i.faults, record { most = i.stride; countdown = i.reads_to_fault }) };

    ghost invariant = { λ i. 0 < i.stride };
}

impl<'a> FaultyInput<'a> {
    /// An input that has these bytes left, gives at most `stride` of them a read, and fails once:
    /// after as many reads as `reads_to_fault` says, or never.
    pub fn new(bytes: &'a [u8], stride: usize, reads_to_fault: Option<u64>) -> FaultyInput<'a>
        requires { 0 < stride }
        ensures { result ≡ (bytes.entry.now, 0, record { most = stride; countdown = reads_to_fault }) }
    {
        FaultyInput {
            rest: bytes,
            stride,
            reads_to_fault,
            faults: 0,
        }
    }

    /// The bytes that are left.
    pub fn rest(&self) -> &'a [u8]
        ensures { result.now ≡ self.now.0 }
    {
        self.rest
    }
}

impl Input for FaultyInput<'_> {
    ghost left = { λ i. Some i.0 };

    ghost failed = { λ i. i.1 };

    fn read(&mut self, buffer: &mut [u8]) -> Result<usize, Fault>
        requires { self.old.1 < 2 ^ 64 - 1 }
        ensures room { IfOk result (λ n. n ≤ length buffer.old) }
        ensures reads { IfOk result (λ n. Reads (Some self.old.0) (Some self.new.0) buffer.new n) }
        ensures fine { OnOk result (self.new.1 ≡ self.old.1) }
        ensures fault { OnErr result (self.new.1 ≡ self.old.1 + 1) }
        ensures exact { FaultyReads self.old self.new (length buffer.old) result }
    {
        match self.reads_to_fault {
            Some(0) => {
                self.reads_to_fault = None;
                self.faults += 1;
                return Err(Fault);
            }
            Some(n) => self.reads_to_fault = Some(n - 1),
            None => {}
        }
        let n = buffer.len().min(self.rest.len()).min(self.stride);
        let (now, later) = self.rest.split_at(n);
        buffer[..n].copy_from_slice(now);
        self.rest = later;
        Ok(n)
    }

    fn faults(&self) -> u64 {
        self.faults
    }
}

/// An output in memory that takes a few bytes a write, and whose room or flush may fail. Contracts see
/// the bytes that it took, how many calls failed, how many of the bytes it handed on, and how it writes on.
#[derive(Drop)]
pub struct FaultyOutput {
    bytes: Vec<u8>,
    handed: usize,
    stride: usize,
    room: usize,
    can_flush: bool,
    faults: u64,
}

impl Model for FaultyOutput {
    ghost use Rattle.std.specs.Prelude.{◌<◌, ◌≤◌, length};
    ghost use Rattle.memory_devices.specs.Faulty.{FaultyTaken};

    ghost Value = { FaultyTaken };

    ghost view = { λ o. (o.bytes.items, o.faults, o.handed, record { most = o.stride; space = o.room; flushes = o.can_flush }) };

    ghost invariant = { λ o. (0 < o.stride) × (o.handed ≤ length o.bytes.items) };
}

impl FaultyOutput {
    /// An output that takes at most `stride` bytes a write and `room` bytes in all. Where that is
    /// full, each write of some bytes fails; where it can't flush, each flush does.
    pub fn new(
        alloc: Global,
        stride: usize,
        room: usize,
        can_flush: bool,
    ) -> Result<FaultyOutput, OutOfMemory>
        requires { 0 < stride }
        ensures { IfOk result (λ o. o ≡ ([], 0, 0, record { most = stride; space = room; flushes = can_flush })) }
    {
        Ok(FaultyOutput {
            bytes: Vec::with_capacity(alloc, room)?,
            handed: 0,
            stride,
            room,
            can_flush,
            faults: 0,
        })
    }

    /// The bytes that were taken.
    pub fn as_slice(&self) -> &[u8]
        ensures { result.now ≡ self.now.0 }
    {
        self.bytes.as_slice()
    }

    /// The bytes that were handed on: those that were taken before the last flush that succeeded.
    pub fn handed(&self) -> &[u8]
        ensures { result.now ≡ take self.now.2 self.now.0 }
    {
        &self.bytes.as_slice()[..self.handed]
    }
}

impl Output for FaultyOutput {
    ghost taken = { λ o. Some o.0 };

    ghost handed = { λ o. Some (take o.2 o.0) };

    ghost failed = { λ o. o.1 };

    fn write(&mut self, bytes: &[u8]) -> Result<usize, Fault>
        requires { self.old.1 < 2 ^ 64 - 1 }
        ensures writes { IfOk result (λ n. Writes (Some self.old.0) (Some self.new.0) bytes.now n) }
        ensures fine { OnOk result (self.new.1 ≡ self.old.1) }
        ensures fault { OnErr result (self.new.1 ≡ self.old.1 + 1) }
        ensures unchanged { OnErr result (Some self.new.0 ≡ Some self.old.0) }
        ensures exact { FaultyWrites self.old self.new bytes.now result }
    {
        let n = bytes.len().min(self.room).min(self.stride);
        let is_full = n == 0 && !bytes.is_empty();
        if is_full || self.bytes.extend_from_slice(&bytes[..n]).is_err() {
            self.faults += 1;
            return Err(Fault);
        }
        self.room -= n;
        Ok(n)
    }

    fn flush(&mut self) -> Result<(), Fault>
        requires { self.old.1 < 2 ^ 64 - 1 }
        ensures unchanged { Some self.new.0 ≡ Some self.old.0 }
        ensures hands { OnOk result (Some (take self.new.2 self.new.0) ≡ Some self.new.0) }
        ensures fine { OnOk result (self.new.1 ≡ self.old.1) }
        ensures fault { OnErr result (self.new.1 ≡ self.old.1 + 1) }
        ensures exact { FaultyFlushes self.old self.new result }
    {
        if !self.can_flush {
            self.faults += 1;
            return Err(Fault);
        }
        self.handed = self.bytes.len();
        Ok(())
    }

    fn faults(&self) -> u64 {
        self.faults
    }
}
