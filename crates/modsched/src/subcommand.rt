//! The work of a command.

ghost use Rattle.std.specs.Prelude.{◌≡◌, ◌+◌, ◌-◌, ◌^◌, ◌<◌, ◌↔◌, Some, take, drop, true, false, IfOk, IfSome, OnOk, IsErrOf};
ghost use Rattle.modsched.specs.Engine.{Does, Ends, first_for, first_unread, last_unread, most_read_by, reads_first};
ghost use Rattle.exit_status.specs.Writing.{CountsFault};
ghost use Rattle.exit_status.specs.Statuses.{HasAnswered, HasWritten, IsComplete, status_number};

mod texts;

use crate::commands::answer_of;
use command_line::{Command, LintTexts};
use devices::{Input, Output, ReadTextError};
use exit_status::Status;
use std::alloc::Global;
use std::thread::Threads;
use texts::{first_text, last_text};

/// Does the work of a command: reads the texts that it needs, makes the output whole, writes it and
/// flushes it. Where it needs two, both are read before either is looked at: first the machine's, or that of
/// the problems whose solutions are judged. A command that needs one leaves the first input alone. After a
/// fault no further call is made on that device, and after a refusal the output is left alone. Kernels are
/// searched for, and problems solved, by workers in threads of `rt`, which change nothing of what is written.
pub fn engine<R: Threads + Sync, M: Input, L: Input, O: Output>(
    rt: &R,
    alloc: Global,
    command: &Command,
    first_input: &mut M,
    last_input: &mut L,
    output: &mut O,
) -> Status
    requires first_fresh { M.failed first_input.old < 2 ^ 64 - 1 }
    requires last_fresh { L.failed last_input.old < 2 ^ 64 - 1 }
    requires output_fresh { O.failed output.old < 2 ^ 64 - 1 }

    // It reports an I/O error if and only if that device's error count rose.
    ensures first_unread { (result ≡ first_unread command.now) ↔ (M.failed first_input.old < M.failed first_input.new) }
    ensures last_unread { (result ≡ last_unread command.now) ↔ (L.failed last_input.old < L.failed last_input.new) }
    ensures unwritten { (result ≡ Status.Unwritten) ↔ (O.failed output.old < O.failed output.new) }

    // It rose by one there, and else it stayed.
    ensures first_faults { CountsFault (result ≡ first_unread command.now) (M.failed first_input.old) (M.failed first_input.new) }
    ensures last_faults { CountsFault (result ≡ last_unread command.now) (L.failed last_input.old) (L.failed last_input.new) }
    ensures output_faults { CountsFault (result ≡ Status.Unwritten) (O.failed output.old) (O.failed output.new) }

    // Want of memory has one status.
    ensures memory { status_number result ≡ 7 → result ≡ Status.OutOfMemory }

    // What was written is the text of the command for the bytes that its inputs had left, or a beginning of it where the output
    // failed; and nothing after a refusal. All of a whole text is handed on.
    ensures exact { HasAnswered result → Does command.now (M.left first_input.old) (L.left last_input.old) (λ ending. Ends ending (O.taken output.old) (O.taken output.new) result) }
    ensures handed { IsComplete result → O.handed output.new ≡ O.taken output.new }
    ensures unused { ¬ HasWritten result → output.new ≡ output.old }

    // Each input that the command reads is read to its end, or to one byte past what a text may have. One that it does not read is left alone.
    ensures first_read { reads_first command.now ≡ true → HasAnswered result → IfSome (M.left first_input.old) (λ bytes. M.left first_input.new ≡ Some (drop (most_read_by command.now) bytes)) }
    ensures last_read { HasAnswered result → IfSome (L.left last_input.old) (λ bytes. L.left last_input.new ≡ Some (drop (most_read_by command.now) bytes)) }
    ensures untouched { reads_first command.now ≡ false → first_input.new ≡ first_input.old }

    // The first input comes first: where it fails the last one is left alone, and where that fails the first was read.
    ensures first_first { result ≡ first_unread command.now → last_input.new ≡ last_input.old }
    ensures last_last { reads_first command.now ≡ true → result ≡ last_unread command.now
        → IfSome (M.left first_input.old) (λ bytes. M.left first_input.new ≡ Some (drop (most_read_by command.now) bytes)) }
{
    let first = match first_text(alloc, command, first_input) {
        Ok(first) => first,
        Err(ReadTextError::Fault) => return first_unread(command),
        Err(ReadTextError::Memory) => return Status::OutOfMemory,
    };
    let last = match last_text(alloc, command, last_input) {
        Ok(last) => last,
        Err(ReadTextError::Fault) => return last_unread(command),
        Err(ReadTextError::Memory) => return Status::OutOfMemory,
    };
    match answer_of(rt, alloc, command, first.as_slice(), last.as_slice()) {
        Ok(answer) => answer.write(output),
        Err(refusal) => refusal,
    }
}

/// The status where the text that is read first can't be read.
fn first_unread(command: &Command) -> Status
    ensures { result ≡ first_unread command.now }
{
    match command {
        Command::Loops { .. } | Command::Solve { .. } | Command::Problems { .. } => {
            Status::MachineUnread
        }
        Command::Check { .. } => Status::ProblemsUnread,
        Command::Lint {
            texts: LintTexts::Machine { .. },
            ..
        } => Status::LoopsUnread,
        Command::Lint { .. } => Status::MachineUnread,
    }
}

/// The status where the text that is read last can't be read.
fn last_unread(command: &Command) -> Status
    ensures { result ≡ last_unread command.now }
{
    match command {
        Command::Loops { .. } => Status::LoopsUnread,
        Command::Solve { .. } | Command::Problems { .. } => Status::ProblemsUnread,
        Command::Check { .. } => Status::SolutionsUnread,
        Command::Lint {
            texts: LintTexts::Machine { .. },
            ..
        } => Status::MachineUnread,
        Command::Lint { .. } => Status::LoopsUnread,
    }
}
