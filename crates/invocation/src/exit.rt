//! The number by which the process exits, and what it tells on the standard error.

ghost use Rattle.std.specs.Prelude.{◌≡◌};
ghost use Rattle.invocation.specs.Exits.{exit_number_of};

use command_line::Usage;
use exit_status::Status;
use std::fmt;
use std::marker::Model;

/// The number by which the process exits.
pub fn exit_number(ending: &Result<Status, Usage>) -> u8
    ensures { result ≡ exit_number_of ending.now }
{
    match ending {
        Ok(status) => status.number(),
        Err(Usage::Help(_)) => 0,
        Err(Usage::Refused(_)) => 2,
        Err(Usage::Memory) => 7,
    }
}

/// What stands on the standard error at the end. Contracts see how the program ends.
#[derive(Drop)]
pub struct Told<'a> {
    ending: &'a Result<Status, Usage>,
}

impl<'a> Model for Told<'a> {
    ghost use Rattle.std.specs.Prelude.{Result};
    ghost use Rattle.command_line.specs.declared.line.Usage.{Usage};
    ghost use Rattle.exit_status.specs.declared.status.Status.{Status};

    ghost Value = { Result Status Usage };

    ghost view = { λ t. t.ending.now };
}

impl<'a> Told<'a> {
    /// What is told of an ending.
    pub fn new(ending: &'a Result<Status, Usage>) -> Told<'a>
        ensures { result ≡ ending.entry.now }
    {
        Told { ending }
    }
}

impl fmt::Display for Told<'_> {
    ghost use Rattle.std.specs.Prelude.{Some};
    ghost use Rattle.invocation.specs.Exits.{told_of};

    ghost output = { λ told. Some (told_of told) };

    fn fmt<W: fmt::Write>(&self, f: &mut fmt::Formatter<W>) -> fmt::Result {
        match self.ending {
            Ok(status) => match status.line() {
                Some(line) => write!(f, "modsched: {line}\n"),
                None => Ok(()),
            },
            Err(Usage::Help(_)) => Ok(()),
            Err(Usage::Refused(text)) => f.write_str(text.as_str()),
            Err(Usage::Memory) => f.write_str("modsched: out of memory\n"),
        }
    }
}
