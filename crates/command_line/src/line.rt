//! The program's command line.

ghost use Rattle.std.specs.Prelude.{◌≡◌, [], Err, map};
ghost use Rattle.clap.specs.Words.{fault_of, kind_of, subcommand_of, subcommand_rows_of};
ghost use Rattle.command_line.specs.Lines.{program_line, IsRead, IsToldBy, Means};
ghost use Rattle.command_line.specs.declared.command.Command.{Command};
ghost use Rattle.command_line.specs.declared.line.Usage.TheVariants.{Memory};

mod form;
mod given;

use crate::command::Command;
use clap::ArgMatches;
use clap::error::ErrorKind;
use form::{program, wanted};
use given::command_of;
use machine_data::OutOfMemory;
use settings::Format;
use std::alloc::Global;

/// Why a line gives no command.
#[derive(Debug, Drop)]
pub enum Usage {
    /// Help or the version was requested: its text.
    Help(String),
    /// The line is refused: what is wrong with it, and how it is used.
    Refused(String),
    /// Memory ran out. This says nothing of the line.
    Memory,
}

impl From<OutOfMemory> for Usage {
    ghost from_gives = { λ _ e. e ≡ Memory };

    fn from(_e: OutOfMemory) -> Usage {
        Usage::Memory
    }
}

// What is told of an error.
fn usage_of(alloc: Global, error: &clap::Error) -> Usage
    ensures { IsToldBy result (kind_of error.now) }
{
    match (error.kind(), error.to_string(alloc)) {
        (ErrorKind::OutOfMemory, _) | (_, Err(_)) => Usage::Memory,
        (ErrorKind::DisplayHelp | ErrorKind::DisplayVersion, Ok(text)) => Usage::Help(text),
        (_, Ok(text)) => Usage::Refused(text),
    }
}

/// Reads the words of a command line, which begin after the program's own name. Paths are any text.
pub fn parse_line<'a>(alloc: Global, words: &'a [&'a str]) -> Result<Command, Usage>
    ensures { let texts = map (λ w. w.now) words.entry.now in
        IsRead result (fault_of program_line texts) (subcommand_of program_line texts) }
{
    match program(alloc, wanted(words))?.try_get_matches_from(words) {
        Ok(matches) => meant(alloc, &matches),
        Err(error) => Err(usage_of(alloc, &error)),
    }
}

// The command that words mean which have the form of a line.
fn meant(alloc: Global, matches: &ArgMatches<'_>) -> Result<Command, Usage>
    ensures { IsRead result [] (subcommand_rows_of matches.now) }
{
    match command_of(alloc, matches)? {
        Some(command) => Ok(command),
        None => Err(refused(alloc, matches)),
    }
}

// What is told of words that mean none.
fn refused(alloc: Global, matches: &ArgMatches<'_>) -> Usage
    ensures { ((c : Command) → ¬ Means c (subcommand_rows_of matches.now)) → IsRead (Err result) [] (subcommand_rows_of matches.now) }
{
    match String::from_str(alloc, refusal(matches)) {
        Ok(text) => Usage::Refused(text),
        Err(_) => Usage::Memory,
    }
}

// What is wrong where nothing else is known.
const MISSING: &str = "error: an argument is missing\n\nFor more information, try '--help'.\n";

// Whether the option for a format names one.
fn is_format(values: &ArgMatches<'_>) -> bool {
    match values.get_str("format") {
        Some(word) => Format::named(word).is_some(),
        None => false,
    }
}

// Whether it names a page.
fn is_page(values: &ArgMatches<'_>) -> bool {
    match values.get_str("format") {
        Some(word) => word == "html",
        None => false,
    }
}

// What is wrong where words have the form of a line, and mean no command.
fn refusal(matches: &ArgMatches<'_>) -> &'static str {
    match matches.subcommand() {
        Some((name, values)) => refusal_of(name, values),
        None => MISSING,
    }
}

// The same of a subcommand of this name.
fn refusal_of(name: &str, values: &ArgMatches<'_>) -> &'static str {
    match name {
        "lint" if is_format(values) => {
            "error: '--machine-only' takes one path, that of the machine\n\nFor more information, try '--help'.\n"
        }
        "vary" if is_format(values) => {
            "error: '--total' is printed as 'text' alone\n\nFor more information, try '--help'.\n"
        }
        "solve" | "schedule" | "vary" | "lint" => {
            "error: '--format' is neither 'text' nor 'json'\n\nFor more information, try '--help'.\n"
        }
        _ if values.contains_id("loop") && !values.contains_id("loops") => {
            "error: '--loop' takes a machine and loops\n\nFor more information, try '--help'.\n"
        }
        "explain" if is_format(values) || is_page(values) => {
            "error: '--format' takes a machine and loops\n\nFor more information, try '--help'.\n"
        }
        "explain" => {
            "error: '--format' is neither 'text' nor 'json' nor 'html'\n\nFor more information, try '--help'.\n"
        }
        _ => MISSING,
    }
}
