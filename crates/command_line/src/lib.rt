//! The command line: commands, options and help, and what the words of a line mean.
//!
//! `form` says which words there may be, and `given` makes a command of them. Where the first word is a subcommand, the
//! others are made without their arguments, so that a short line does not wait for them. It is proved that `clap` reads
//! the words as it would with all arguments made.
#![tactic(auto)]

mod command;
mod help;
mod line;

pub use command::{Command, LintTexts, Report, Search, Task, Work};
pub use line::{Usage, parse_line};
pub use settings::{Format, Settings, TRIP_LIMIT, Trip};
