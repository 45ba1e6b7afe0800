//! What `run` and `plain` do with loops.

ghost use Rattle.std.specs.Prelude.{◌≡◌};
ghost use Rattle.loop_reader.specs.Meaning.{loops_in};
ghost use Rattle.machine.specs.MachineText.{machine_of};
ghost use Rattle.run_program.specs.Answers.{TellsOf, wanted_of};

use command_line::{Command, Search, Task, Work};
use file_faults::FileFault;
use run_printouts::{plain_alone, run_alone};
use settings::{Settings, Trip};
use small_answers::Makes;
use std::alloc::Global;
use written::Printout;

/// What is wanted of loops.
#[derive(Drop)]
pub(crate) enum Wanted {
    /// What each changes in so many iterations, one after another.
    Plain(Trip),
    /// What each kernel changes in so many iterations.
    Run(Settings, Trip),
}

impl Makes for Wanted {
    ghost use Rattle.run_program.specs.Answers.{TellsOf, on_machine};

    ghost on_machine = { on_machine };

    ghost tells = { TellsOf };

    fn is_on_machine(&self) -> bool {
        match self {
            Wanted::Plain(_) => false,
            Wanted::Run(..) => true,
        }
    }

    fn printout(&self, alloc: Global, machine: &[u8], loops: &[u8]) -> Result<Printout, FileFault> {
        printout_of(alloc, self, machine, loops)
    }
}

/// What is written for these texts.
fn printout_of(
    alloc: Global,
    wanted: &Wanted,
    machine: &[u8],
    loops: &[u8],
) -> Result<Printout, FileFault>
    ensures { TellsOf wanted.now (machine_of machine.now) (loops_in loops.now) result }
{
    match wanted {
        Wanted::Plain(trip) => plain_alone(alloc, loops, *trip),
        Wanted::Run(settings, trip) => run_alone(alloc, machine, loops, *trip, settings),
    }
}

/// What a command wants, where this program has it.
pub(crate) fn wanted_of(command: &Command) -> Option<Wanted>
    ensures { result ≡ wanted_of command.now }
{
    match command {
        Command::Loops { names, work, .. } if names.is_empty() => match work {
            Work::Plain { trip, .. } => Some(Wanted::Plain(*trip)),
            Work::OnMachine {
                task: Task::Search(settings, Search::Run(trip)),
                ..
            } => { Some(Wanted::Run(*settings, *trip)) }
            Work::OnMachine { .. } => None,
        },
        _ => None,
    }
}
