//! Files and the standard output. What they hold and take is not known to any clause.

ghost use Rattle.std.specs.Prelude.{◌≡◌, ◌<◌, ◌≤◌, length, None, IfOk};

use super::{Fault, Input, Output};
use std::io::{ErrorKind, Read};
use std::marker::Model;
use std::rt::Files;
use std::{fs, io};

// how often a call that a signal interrupts is made before it counts as failed
const TRIES: usize = 64;

// the path of the standard input
const STANDARD_INPUT: &str = "-";

/// A file, which is opened at the first read, or the standard input, whose path is `-`. Contracts see the path and how many
/// reads failed.
#[derive(Drop)]
pub struct FileInput<'a, R: Files> {
    system: &'a R,
    path: &'a str,
    file: Option<R::File>,
    faults: u64,
}

impl<'a, R: Files> Model for FileInput<'a, R> {
    ghost use Rattle.std.specs.Prelude.{ℕ, List};

    ghost Value = { List ℕ × ℕ };

    ghost view = { λ i. (i.path.now, i.faults) };
}

impl<'a, R: Files + io::Input> FileInput<'a, R> {
    /// The file at this path, or the standard input. Nothing is opened yet.
    pub fn new(system: &'a R, path: &'a str) -> FileInput<'a, R>
        ensures { result ≡ (path.entry.now, 0) }
    {
        FileInput {
            system,
            path,
            file: None,
            faults: 0,
        }
    }

    fn try_read(&mut self, buffer: &mut [u8]) -> io::Result<usize>
        ensures room { IfOk result (λ n. n ≤ length buffer.old) }
        ensures same { self.new ≡ self.old }
    {
        match &mut self.file {
            Some(file) => read_retrying(file, buffer),
            None if self.path == STANDARD_INPUT => read_retrying(&mut self.system.reader(), buffer),
            None => {
                let mut file = fs::open(self.system, self.path)?;
                let n = read_retrying(&mut file, buffer)?;
                self.file = Some(file);
                Ok(n)
            }
        }
    }
}

fn read_retrying(file: &mut impl Read, buffer: &mut [u8]) -> io::Result<usize>
    ensures { IfOk result (λ n. n ≤ length buffer.old) }
{
    for _ in 0..TRIES {
        match file.read(buffer) {
            Err(e) if e.kind() == ErrorKind::Interrupted => {}
            result => return result,
        }
    }
    Err(io::Error::from(ErrorKind::Interrupted))
}

impl<R: Files + io::Input> Input for FileInput<'_, R> {
    ghost left = { λ _. None };

    ghost failed = { λ i. i.1 };

    fn read(&mut self, buffer: &mut [u8]) -> Result<usize, Fault> {
        match self.try_read(buffer) {
            Ok(n) => Ok(n),
            Err(_) => {
                self.faults += 1;
                Err(Fault)
            }
        }
    }

    fn faults(&self) -> u64 {
        self.faults
    }
}

/// The standard output. Contracts see how many calls failed.
#[derive(Drop)]
pub struct StandardOutput<'a, R> {
    system: &'a R,
    faults: u64,
}

impl<'a, R> Model for StandardOutput<'a, R> {
    ghost use Rattle.std.specs.Prelude.{ℕ};

    ghost Value = { ℕ };

    ghost view = { λ o. o.faults };
}

impl<'a, R: Print> StandardOutput<'a, R> {
    /// The standard output of this system.
    pub fn new(system: &'a R) -> StandardOutput<'a, R>
        ensures { result ≡ 0 }
    {
        StandardOutput { system, faults: 0 }
    }

    fn try_write(&self, bytes: &[u8]) -> io::Result<usize>
        ensures some { IfOk result (λ n. 0 < length bytes.now → 0 < n) }
        ensures room { IfOk result (λ n. n ≤ length bytes.now) }
    {
        for _ in 0..TRIES {
            match self.system.write_some(bytes) {
                Ok(0) if !bytes.is_empty() => return Err(io::Error::from(ErrorKind::WriteZero)),
                Err(e) if e.kind() == ErrorKind::Interrupted => {}
                result => return result,
            }
        }
        Err(io::Error::from(ErrorKind::Interrupted))
    }
}

impl<R: Print> Output for StandardOutput<'_, R> {
    ghost taken = { λ _. None };

    ghost handed = { λ _. None };

    ghost failed = { λ o. o };

    fn write(&mut self, bytes: &[u8]) -> Result<usize, Fault> {
        match self.try_write(bytes) {
            Ok(n) => Ok(n),
            Err(_) => {
                self.faults += 1;
                Err(Fault)
            }
        }
    }

    // the writes go to the system at once
    fn flush(&mut self) -> Result<(), Fault> {
        Ok(())
    }

    fn faults(&self) -> u64 {
        self.faults
    }
}
