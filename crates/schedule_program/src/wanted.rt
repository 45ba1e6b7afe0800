//! What `schedule` and `bounds` do with loops.

ghost use Rattle.std.specs.Prelude.{◌≡◌};
ghost use Rattle.loop_reader.specs.Meaning.{loops_in};
ghost use Rattle.machine.specs.MachineText.{machine_of};
ghost use Rattle.schedule_program.specs.Answers.{TellsOf, wanted_of, wanted_of_task};

use command_line::{Command, Search, Task, Work};
use file_faults::FileFault;
use printouts::{bounds_alone, schedule_alone};
use settings::Settings;
use small_answers::Makes;
use std::alloc::Global;
use written::Printout;

/// What is wanted of loops.
#[derive(Drop)]
pub(crate) enum Wanted {
    /// The bounds of each.
    Bounds,
    /// The kernel of each.
    Schedule(Settings),
}

impl Makes for Wanted {
    ghost use Rattle.schedule_program.specs.Answers.{TellsOf, on_machine};

    ghost on_machine = { on_machine };

    ghost tells = { TellsOf };

    fn is_on_machine(&self) -> bool {
        true
    }

    fn printout(&self, alloc: Global, machine: &[u8], loops: &[u8]) -> Result<Printout, FileFault> {
        printout_of(alloc, self, machine, loops)
    }
}

/// What is written for these texts.
fn printout_of(
    alloc: Global,
    wanted: &Wanted,
    machine: &[u8],
    loops: &[u8],
) -> Result<Printout, FileFault>
    ensures { TellsOf wanted.now (machine_of machine.now) (loops_in loops.now) result }
{
    match wanted {
        Wanted::Bounds => bounds_alone(alloc, machine, loops),
        Wanted::Schedule(settings) => schedule_alone(alloc, machine, loops, settings),
    }
}

/// What a command wants, where this program has it.
pub(crate) fn wanted_of(command: &Command) -> Option<Wanted>
    ensures { result ≡ wanted_of command.now }
{
    match command {
        Command::Loops { names, work, .. } if names.is_empty() => match work {
            Work::OnMachine { task, .. } => wanted_of_task(task),
            Work::Plain { .. } => None,
        },
        _ => None,
    }
}

/// What is wanted of loops on a machine, where this program has it.
fn wanted_of_task(task: &Task) -> Option<Wanted>
    ensures { result ≡ wanted_of_task task.now }
{
    match task {
        Task::Bounds => Some(Wanted::Bounds),
        Task::Search(settings, Search::Schedule) => Some(Wanted::Schedule(*settings)),
        _ => None,
    }
}
