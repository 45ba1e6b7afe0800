//! How a command is carried out over two inputs, the machine's and the loops', and an output.

ghost use Rattle.std.specs.Prelude.{◌≡◌, ◌+◌, ◌-◌, ◌^◌, ◌<◌, ◌↔◌, Some, take, drop, true, false, IfOk, IfSome, OnOk, IsErrOf};
ghost use Rattle.devices.specs.Devices.{most_read};
ghost use Rattle.exit_status.specs.Statuses.{HasAnswered, HasWritten, IsComplete, status_number};
ghost use Rattle.exit_status.specs.Writing.{CountsFault};
ghost use Rattle.small_answers.specs.Answers.{IsDone, EndsAs, machine_for};

use crate::makes::Makes;
use devices::{Input, Output, ReadTextError, read_text};
use exit_status::{Status, Verdict, finish};
use std::alloc::Global;

/// Does what is wanted: reads the text of the machine, where that is needed, and of the loops, makes the output whole, writes it and flushes it. After a fault
/// no further call is made on that device, and after a refusal the output is left alone.
pub fn answer<W: Makes, M: Input, L: Input, O: Output>(
    alloc: Global,
    wanted: &W,
    machine_input: &mut M,
    loops_input: &mut L,
    output: &mut O,
) -> Status
    requires machine_fresh { M.failed machine_input.old < 2 ^ 64 - 1 }
    requires loops_fresh { L.failed loops_input.old < 2 ^ 64 - 1 }
    requires output_fresh { O.failed output.old < 2 ^ 64 - 1 }

    // It reports an I/O error if and only if that device's error count rose.
    ensures machine_unread { (result ≡ Status.MachineUnread) ↔ (M.failed machine_input.old < M.failed machine_input.new) }
    ensures loops_unread { (result ≡ Status.LoopsUnread) ↔ (L.failed loops_input.old < L.failed loops_input.new) }
    ensures unwritten { (result ≡ Status.Unwritten) ↔ (O.failed output.old < O.failed output.new) }

    // It rose by one there, and else it stayed.
    ensures machine_faults { CountsFault (result ≡ Status.MachineUnread) (M.failed machine_input.old) (M.failed machine_input.new) }
    ensures loops_faults { CountsFault (result ≡ Status.LoopsUnread) (L.failed loops_input.old) (L.failed loops_input.new) }
    ensures output_faults { CountsFault (result ≡ Status.Unwritten) (O.failed output.old) (O.failed output.new) }

    // What was written is the text for the bytes that the inputs had left, or a beginning of it where the output failed; and nothing
    // after a refusal. All of a whole text is handed on.
    ensures exact { HasAnswered result → IsDone (W.on_machine wanted.now) (W.tells wanted.now) (M.left machine_input.old) (L.left loops_input.old)
        (λ outcome. EndsAs outcome (O.taken output.old) (O.taken output.new) result) }
    ensures handed { IsComplete result → O.handed output.new ≡ O.taken output.new }
    ensures unused { ¬ HasWritten result → output.new ≡ output.old }

    // Want of memory has one status.
    ensures memory { status_number result ≡ 7 → result ≡ Status.OutOfMemory }

    // Each input that it reads is read to its end, or to one byte past what a text may have, the machine's first. One that it does not read is
    // left alone.
    ensures machine_read { W.on_machine wanted.now ≡ true → HasAnswered result → IfSome (M.left machine_input.old) (λ bytes. M.left machine_input.new ≡ Some (drop most_read bytes)) }
    ensures loops_read { HasAnswered result → IfSome (L.left loops_input.old) (λ bytes. L.left loops_input.new ≡ Some (drop most_read bytes)) }
    ensures untouched { W.on_machine wanted.now ≡ false → machine_input.new ≡ machine_input.old }
    ensures machine_first { result ≡ Status.MachineUnread → loops_input.new ≡ loops_input.old }
    ensures loops_last { W.on_machine wanted.now ≡ true → result ≡ Status.LoopsUnread
        → IfSome (M.left machine_input.old) (λ bytes. M.left machine_input.new ≡ Some (drop most_read bytes)) }
{
    let machine = match machine_text(alloc, wanted, machine_input) {
        Ok(text) => text,
        Err(ReadTextError::Fault) => return Status::MachineUnread,
        Err(ReadTextError::Memory) => return Status::OutOfMemory,
    };
    let loops = match read_text(alloc, loops_input) {
        Ok(text) => text,
        Err(ReadTextError::Fault) => return Status::LoopsUnread,
        Err(ReadTextError::Memory) => return Status::OutOfMemory,
    };
    match wanted.printout(alloc, machine.as_slice(), loops.as_slice()) {
        Ok(printout) => finish(output, printout.text(), Verdict::of_met(printout.all_met())),
        Err(fault) => Status::from(fault),
    }
}

/// The text of the machine, which is empty where none is read.
fn machine_text<W: Makes, M: Input>(
    alloc: Global,
    wanted: &W,
    input: &mut M,
) -> Result<Vec<u8>, ReadTextError>
    requires { M.failed input.old < 2 ^ 64 - 1 }
    ensures text { IfOk result (λ text. IfSome (machine_for (W.on_machine wanted.now) (M.left input.old)) (λ bytes. text.items ≡ take most_read bytes)) }
    ensures rest { W.on_machine wanted.now ≡ true → OnOk result (IfSome (M.left input.old) (λ bytes. M.left input.new ≡ Some (drop most_read bytes))) }
    ensures untouched { W.on_machine wanted.now ≡ false → input.new ≡ input.old }
    ensures fine { OnOk result (M.failed input.new ≡ M.failed input.old) }
    ensures fault { IsErrOf result ReadTextError.Fault ↔ (M.failed input.new ≡ M.failed input.old + 1) }
    ensures memory { IsErrOf result ReadTextError.Memory → M.failed input.new ≡ M.failed input.old }
{
    if wanted.is_on_machine() {
        read_text(alloc, input)
    } else {
        Ok(Vec::new(alloc))
    }
}
