//! The texts that a command reads.

ghost use Rattle.std.specs.Prelude.{◌≡◌, ◌+◌, ◌-◌, ◌^◌, ◌<◌, ◌↔◌, Some, take, drop, true, false, IfOk, IfSome, OnOk, IsErrOf};
ghost use Rattle.modsched.specs.Engine.{first_for, most_problems_read, most_read_by, reads_first};

use command_line::Command;
use devices::{Input, ReadTextError, read_text, read_text_of};
use problems::limits::MAX_PROBLEM_TEXT;
use std::alloc::Global;

/// The text that is read first, which is empty where the command reads none.
pub(super) fn first_text<M: Input>(
    alloc: Global,
    command: &Command,
    input: &mut M,
) -> Result<Vec<u8>, ReadTextError>
    requires { M.failed input.old < 2 ^ 64 - 1 }
    ensures text { IfOk result (λ text. IfSome (first_for command.now (M.left input.old)) (λ bytes. text.items ≡ take (most_read_by command.now) bytes)) }
    ensures rest { reads_first command.now ≡ true → OnOk result (IfSome (M.left input.old) (λ bytes. M.left input.new ≡ Some (drop (most_read_by command.now) bytes))) }
    ensures untouched { reads_first command.now ≡ false → input.new ≡ input.old }
    ensures fine { OnOk result (M.failed input.new ≡ M.failed input.old) }
    ensures fault { IsErrOf result ReadTextError.Fault ↔ (M.failed input.new ≡ M.failed input.old + 1) }
    ensures memory { IsErrOf result ReadTextError.Memory → M.failed input.new ≡ M.failed input.old }
{
    match command.first_path() {
        Some(_) => text_of(alloc, command, input),
        None => Ok(Vec::new(alloc)),
    }
}

/// The text that is read last.
pub(super) fn last_text<L: Input>(
    alloc: Global,
    command: &Command,
    input: &mut L,
) -> Result<Vec<u8>, ReadTextError>
    requires { L.failed input.old < 2 ^ 64 - 1 }
    ensures text { IfOk result (λ text. IfSome (L.left input.old) (λ bytes. text.items ≡ take (most_read_by command.now) bytes)) }
    ensures rest { OnOk result (IfSome (L.left input.old) (λ bytes. L.left input.new ≡ Some (drop (most_read_by command.now) bytes))) }
    ensures fine { OnOk result (L.failed input.new ≡ L.failed input.old) }
    ensures fault { IsErrOf result ReadTextError.Fault ↔ (L.failed input.new ≡ L.failed input.old + 1) }
    ensures memory { IsErrOf result ReadTextError.Memory → L.failed input.new ≡ L.failed input.old }
{
    text_of(alloc, command, input)
}

/// A text of the kind that the command reads, up to one byte past what such a text may have.
fn text_of<I: Input>(
    alloc: Global,
    command: &Command,
    input: &mut I,
) -> Result<Vec<u8>, ReadTextError>
    requires { I.failed input.old < 2 ^ 64 - 1 }
    ensures text { IfOk result (λ text. IfSome (I.left input.old) (λ bytes. text.items ≡ take (most_read_by command.now) bytes)) }
    ensures rest { OnOk result (IfSome (I.left input.old) (λ bytes. I.left input.new ≡ Some (drop (most_read_by command.now) bytes))) }
    ensures fine { OnOk result (I.failed input.new ≡ I.failed input.old) }
    ensures fault { IsErrOf result ReadTextError.Fault ↔ (I.failed input.new ≡ I.failed input.old + 1) }
    ensures memory { IsErrOf result ReadTextError.Memory → I.failed input.new ≡ I.failed input.old }
{
    match command {
        Command::Loops { .. } | Command::Lint { .. } => read_text(alloc, input),
        Command::Solve { .. } | Command::Problems { .. } | Command::Check { .. } => {
            problem_text(alloc, input)
        }
    }
}

/// A text of problems or of solutions.
fn problem_text<I: Input>(alloc: Global, input: &mut I) -> Result<Vec<u8>, ReadTextError>
    requires { I.failed input.old < 2 ^ 64 - 1 }
    ensures text { IfOk result (λ text. IfSome (I.left input.old) (λ bytes. text.items ≡ take most_problems_read bytes)) }
    ensures rest { OnOk result (IfSome (I.left input.old) (λ bytes. I.left input.new ≡ Some (drop most_problems_read bytes))) }
    ensures fine { OnOk result (I.failed input.new ≡ I.failed input.old) }
    ensures fault { IsErrOf result ReadTextError.Fault ↔ (I.failed input.new ≡ I.failed input.old + 1) }
    ensures memory { IsErrOf result ReadTextError.Memory → I.failed input.new ≡ I.failed input.old }
{
    read_text_of(alloc, input, MAX_PROBLEM_TEXT)
}
