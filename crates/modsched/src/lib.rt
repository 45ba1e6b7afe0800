//! The work of every command, over inputs and an output: one contract says what each of them writes.
//!
//! For the unread bytes of its inputs, `engine` writes exactly the specified output and hands it on, or rejects the
//! input and writes nothing. It reports an I/O error of a device if and only if that device's error count rose. It
//! first reads the machine's text, or that of the problems whose solutions are judged, and then the other one. One pure
//! function says what is printed of them (`answer_of`). Users of the libraries take this crate, which passes on what
//! stands below it.
#![tactic(auto)]

mod commands;
mod subcommand;

pub use command_line::{
    Command, Format, LintTexts, Report, Search, TRIP_LIMIT, Task, Trip, Usage, Work, parse_line,
};
pub use devices::{
    Fault, FileInput, Input, Output, ReadTextError, StandardOutput, TEXT_LIMIT, read_text,
    write_text,
};
pub use exit_status::{Line, Status, Verdict, finish, show};
pub use lines_of_runs::kernels_tell_plain_lines;
pub use memory_devices::{Bytes, FaultyInput, FaultyOutput, TakenBytes};
pub use settings::{OutOfRange, Settings};
pub use subcommand::engine;

// The crate of inputs knows no machine, and so has this limit by itself.
const _: () = prove!(TEXT_LIMIT == machine::limits::MAX_TEXT);
