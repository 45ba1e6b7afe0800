//! The program `modsched`, with all commands: software pipelining of loops and of scheduling problems.
//!
//! Its stored run is the listing of the loop in README. That `main` prints and exits as it should on real files, pipes
//! and devices is tested.
#![tactic(auto)]

ghost use Rattle.std.specs.Prelude.{IfErr};
ghost use Rattle.invocation.specs.Endings.{IsNoRequest};

use invocation::{Invocation, Told, exit_number, files, invoked};
use modsched::{Command, StandardOutput, Status, Usage, engine};
use std::process::ExitCode;
use std::rt::{Env, Files};
use std::thread::Threads;

fn main(rt: HostRuntime) -> ExitCode {
    let ending = run(&rt);
    let told = Told::new(&ending);
    let _ = eprint!(rt; "{told}");
    ExitCode::from(exit_number(&ending))
}

/// Reads the command line and carries it out.
fn run<R: AllocGlobal + Env + Files + Input + Print + Threads + Sync>(
    rt: &R,
) -> Result<Status, Usage>
    ensures { IfErr result IsNoRequest }
{
    match invoked(rt)? {
        Invocation::Work(command) => Ok(work(rt, &command)),
        Invocation::Shown(status) => Ok(status),
    }
}

/// Does the work of a command over its files and the standard output.
fn work<R: AllocGlobal + Files + Input + Print + Threads + Sync>(
    rt: &R,
    command: &Command,
) -> Status {
    let (mut first, mut last) = files(rt, command);
    let mut output = StandardOutput::new(rt);
    engine(rt, rt.alloc(), command, &mut first, &mut last, &mut output)
}
