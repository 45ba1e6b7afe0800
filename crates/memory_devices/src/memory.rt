//! Devices in memory.

ghost use Rattle.std.specs.Prelude.{◌≡◌, ◌+◌, ◌-◌, ◌^◌, ◌<◌, ◌≤◌, length, min, take, [], Some, IfOk, IsOk, OnOk, OnErr};
ghost use Rattle.devices.specs.Devices.{Reads, Writes};

use devices::{Fault, Input, OutOfMemory, Output};
use std::alloc::Global;
use std::marker::Model;

/// An input over bytes in memory. None of its calls fails. Contracts see the bytes that are left.
#[derive(Drop)]
pub struct Bytes<'a> {
    rest: &'a [u8],
}

impl<'a> Model for Bytes<'a> {
    ghost use Rattle.std.specs.Prelude.{ℕ, List};

    ghost Value = { List ℕ };

    ghost view = { λ b. b.rest.now };
}

impl<'a> Bytes<'a> {
    /// An input that has these bytes left.
    pub fn new(bytes: &'a [u8]) -> Bytes<'a>
        ensures { result ≡ bytes.entry.now }
    {
        Bytes { rest: bytes }
    }

    /// The bytes that are left.
    pub fn rest(&self) -> &'a [u8]
        ensures { result.now ≡ self.now }
    {
        self.rest
    }
}

impl Input for Bytes<'_> {
    ghost left = { λ b. Some b };

    ghost failed = { λ _. 0 };

    fn read(&mut self, buffer: &mut [u8]) -> Result<usize, Fault>
        ensures room { IfOk result (λ n. n ≤ length buffer.old) }
        ensures reads { IfOk result (λ n. Reads (Some self.old) (Some self.new) buffer.new n) }
        ensures never { IsOk result }
        ensures exact { IfOk result (λ n. n ≡ min (length buffer.old) (length self.old)) }
    {
        let (now, later) = self.rest.split_at(buffer.len().min(self.rest.len()));
        buffer[..now.len()].copy_from_slice(now);
        self.rest = later;
        Ok(now.len())
    }

    fn faults(&self) -> u64 {
        0
    }
}

/// An output that keeps the bytes that it takes. A call fails only where memory for them is refused.
/// Contracts see the bytes, how many calls failed, and how many of the bytes were handed on.
#[derive(Drop)]
pub struct TakenBytes {
    bytes: Vec<u8>,
    faults: u64,
    handed: usize,
}

impl Model for TakenBytes {
    ghost use Rattle.std.specs.Prelude.{ℕ, List, ◌≤◌, length};

    ghost Value = { List ℕ × ℕ × ℕ };

    ghost view = { λ t. (t.bytes.items, t.faults, t.handed) };

    ghost invariant = { λ t. t.handed ≤ length t.bytes.items };
}

impl TakenBytes {
    /// An output that took nothing yet, with room for this many bytes.
    pub fn with_capacity(alloc: Global, capacity: usize) -> Result<TakenBytes, OutOfMemory>
        ensures { IfOk result (λ t. t ≡ ([], 0, 0)) }
    {
        Ok(TakenBytes {
            bytes: Vec::with_capacity(alloc, capacity)?,
            faults: 0,
            handed: 0,
        })
    }

    /// The bytes that were taken.
    pub fn as_slice(&self) -> &[u8]
        ensures { result.now ≡ self.now.0 }
    {
        self.bytes.as_slice()
    }

    /// The bytes that were handed on: those that were taken before the last flush.
    pub fn handed(&self) -> &[u8]
        ensures { result.now ≡ take self.now.2 self.now.0 }
    {
        &self.bytes.as_slice()[..self.handed]
    }
}

impl Output for TakenBytes {
    ghost taken = { λ t. Some t.0 };

    ghost handed = { λ t. Some (take t.2 t.0) };

    ghost failed = { λ t. t.1 };

    fn write(&mut self, bytes: &[u8]) -> Result<usize, Fault>
        requires { self.old.1 < 2 ^ 64 - 1 }
        ensures writes { IfOk result (λ n. Writes (Some self.old.0) (Some self.new.0) bytes.now n) }
        ensures fine { OnOk result (self.new.1 ≡ self.old.1) }
        ensures fault { OnErr result (self.new.1 ≡ self.old.1 + 1) }
        ensures unchanged { OnErr result (Some self.new.0 ≡ Some self.old.0) }
        ensures exact { IfOk result (λ n. n ≡ length bytes.now) }
    {
        match self.bytes.extend_from_slice(bytes) {
            Ok(()) => Ok(bytes.len()),
            Err(std::alloc::AllocError) => {
                self.faults += 1;
                Err(Fault)
            }
        }
    }

    fn flush(&mut self) -> Result<(), Fault>
        ensures unchanged { Some self.new.0 ≡ Some self.old.0 }
        ensures hands { OnOk result (Some (take self.new.2 self.new.0) ≡ Some self.new.0) }
        ensures exact { self.new ≡ (self.old.0, self.old.1, length self.old.0) }
        ensures never { IsOk result }
    {
        self.handed = self.bytes.len();
        Ok(())
    }

    fn faults(&self) -> u64 {
        self.faults
    }
}
