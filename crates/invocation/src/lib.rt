//! What a program was called for: a command over the files that its line names, or help, which is shown.
//!
//! It also says by which number the process exits, and what the standard error gets (`exit_number`, `Told`). All
//! programs begin and end with it.
#![tactic(auto)]

ghost use Rattle.std.specs.Prelude.{◌≡◌, List, map, IfErr, OnOk};
ghost use Rattle.clap.specs.Words.{Text, fault_of, subcommand_of};
ghost use Rattle.command_line.specs.Lines.{last_path, program_line};
ghost use Rattle.invocation.specs.Endings.{IsInvocation, IsNoRequest};
ghost use Rattle.invocation.specs.Paths.{first_file};

mod exit;

use command_line::{Command, Usage, parse_line};
use devices::{FileInput, StandardOutput};
pub use exit::{Told, exit_number};
use exit_status::{Status, show};
use std::env;
use std::io::ErrorKind;
use std::rt::{Env, Files};

/// What a program is invoked for.
#[derive(Drop)]
pub enum Invocation {
    /// A command to carry out.
    Work(Command),
    /// Help or the version. It was shown, or it could not be written, and the run ends so.
    Shown(Status),
}

/// What the words after the program's name ask for. Help and the version are shown on the standard output.
///
/// # Errors
/// As those of [`invoked_by`]; and that a word is not text.
pub fn invoked<R: AllocGlobal + Env + Print>(rt: &R) -> Result<Invocation, Usage>
    ensures shown { IfErr result IsNoRequest }
    ensures meant { OnOk result ((texts : List Text) × IsInvocation result (fault_of program_line texts) (subcommand_of program_line texts)) }
{
    let given = words(rt)?;
    let words: Vec<&str> = given.iter().map(|word| word.as_str()).collect(rt.alloc())?;
    invoked_by(rt, words.as_slice())
}

/// The words after the program's name.
fn words<R: AllocGlobal + Env>(rt: &R) -> Result<Vec<String>, Usage>
    ensures { IfErr result IsNoRequest }
{
    match env::args(rt) {
        Ok(given) => Ok(given.skip(1).collect(rt.alloc())?),
        Err(e) if e.kind() == ErrorKind::OutOfMemory => Err(Usage::Memory),
        Err(_) => {
            let why = "error: a word of the line is not text\n";
            Err(Usage::Refused(String::from_str(rt.alloc(), why)?))
        }
    }
}

/// What these words ask for. Help and the version are shown on the standard output.
///
/// # Errors
/// What is wrong with the words, and how a line is used; and [`Usage::Memory`].
pub fn invoked_by<R: AllocGlobal + Print>(rt: &R, words: &[&str]) -> Result<Invocation, Usage>
    ensures shown { IfErr result IsNoRequest }
    ensures meant { let texts = map (λ w. w.now) words.entry.now in
        IsInvocation result (fault_of program_line texts) (subcommand_of program_line texts) }
{
    match parse_line(rt.alloc(), words) {
        Ok(command) => Ok(Invocation::Work(command)),
        Err(Usage::Help(text)) => Ok(Invocation::Shown(show(
            &mut StandardOutput::new(rt),
            text.as_str(),
        ))),
        Err(usage) => Err(usage),
    }
}

/// The file that a command reads first and the one that it reads last, each of which may be the standard input. Nothing is
/// opened yet: a file is opened where it is first read, so that the first one only for a command that reads two.
pub fn files<'a, R: Files + Input>(
    rt: &'a R,
    command: &'a Command,
) -> (FileInput<'a, R>, FileInput<'a, R>)
    ensures first { result.0 ≡ (first_file command.entry.now, 0) }
    ensures last { result.1 ≡ (last_path command.entry.now, 0) }
{
    let first = command.first_path().unwrap_or("");
    (
        FileInput::new(rt, first),
        FileInput::new(rt, command.last_path()),
    )
}
