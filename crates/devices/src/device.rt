//! What the program reads from and writes to.

ghost use Rattle.std.specs.Prelude.{◌≡◌, ◌+◌, ◌-◌, ◌^◌, ◌<◌, ◌≤◌, ℕ, List, length, Option, IfOk, OnOk, OnErr};
ghost use Rattle.devices.specs.Devices.{Reads, Writes};

mod system;

pub use system::{FileInput, StandardOutput};

/// A call of an input or an output failed.
#[derive(Clone, Copy, Debug, PartialEq, Eq)]
pub struct Fault;

/// What can be read from its beginning to its end.
pub trait Input {
    /// The bytes that are left, where they are known: those in memory are, those of a file are not.
    ghost left: { Self → Option (List ℕ) };

    /// How many calls failed so far.
    ghost failed: { Self → ℕ };

    /// Reads bytes into the front of a buffer, and answers how many. It answers 0, given room, only
    /// where nothing is left.
    fn read(&mut self, buffer: &mut [u8]) -> Result<usize, Fault>
        requires { failed self.old < 2 ^ 64 - 1 }
        ensures room { IfOk result (λ n. n ≤ length buffer.old) }
        ensures reads { IfOk result (λ n. Reads (left self.old) (left self.new) buffer.new n) }
        ensures fine { OnOk result (failed self.new ≡ failed self.old) }
        ensures fault { OnErr result (failed self.new ≡ failed self.old + 1) };

    /// How many calls failed so far.
    fn faults(&self) -> u64
        ensures { result ≡ failed self.now };
}

/// What can be written to.
pub trait Output {
    /// The bytes that it took, where they are known.
    ghost taken: { Self → Option (List ℕ) };

    /// The bytes that it handed on, where they are known. It may keep back what it took until a flush.
    ghost handed: { Self → Option (List ℕ) };

    /// How many calls failed so far. A write that takes none of some bytes is one of them.
    ghost failed: { Self → ℕ };

    /// Takes some of the bytes, from the first on, and answers how many.
    fn write(&mut self, bytes: &[u8]) -> Result<usize, Fault>
        requires { failed self.old < 2 ^ 64 - 1 }
        ensures writes { IfOk result (λ n. Writes (taken self.old) (taken self.new) bytes.now n) }
        ensures fine { OnOk result (failed self.new ≡ failed self.old) }
        ensures fault { OnErr result (failed self.new ≡ failed self.old + 1) }
        ensures unchanged { OnErr result (taken self.new ≡ taken self.old) };

    /// Hands on all that was taken.
    fn flush(&mut self) -> Result<(), Fault>
        requires { failed self.old < 2 ^ 64 - 1 }
        ensures unchanged { taken self.new ≡ taken self.old }
        ensures hands { OnOk result (handed self.new ≡ taken self.new) }
        ensures fine { OnOk result (failed self.new ≡ failed self.old) }
        ensures fault { OnErr result (failed self.new ≡ failed self.old + 1) };

    /// How many calls failed so far.
    fn faults(&self) -> u64
        ensures { result ≡ failed self.now };
}
