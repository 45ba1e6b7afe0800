//! A small program with `run` and `plain`, by one thread, which is built and proved long before the whole one.
//!
//! It prints what the whole program prints, and ends so, unless memory runs out. It stands on nearly all that
//! `schedule_program` stands on, and on the crates that run loops and kernels.
#![tactic(auto)]

ghost use Rattle.std.specs.Prelude.{◌≡◌, is_ok, is_some, IfErr};
ghost use Rattle.invocation.specs.Endings.{IsNoRequest};
ghost use Rattle.run_program.specs.Answers.{wanted_of};

mod wanted;

use command_line::{Command, Usage};
use exit_status::Status;
use invocation::{Invocation, Told, exit_number, invoked};
use small_answers::work;
use std::process::ExitCode;
use std::rt::{Env, Files};
use wanted::wanted_of;

fn main(rt: HostRuntime) -> ExitCode {
    let ending = run(&rt);
    let told = Told::new(&ending);
    let _ = eprint!(rt; "{told}");
    ExitCode::from(exit_number(&ending))
}

/// Reads the command line and carries out what it asks for.
fn run<R: AllocGlobal + Env + Files + Input + Print>(rt: &R) -> Result<Status, Usage>
    ensures { IfErr result IsNoRequest }
{
    match invoked(rt)? {
        Invocation::Work(command) => carry_out(rt, &command),
        Invocation::Shown(status) => Ok(status),
    }
}

/// Carries out a command, where this program has it.
///
/// # Errors
/// This program lacks the command; or memory ran out before that could be told.
fn carry_out<R: AllocGlobal + Files + Input + Print>(
    rt: &R,
    command: &Command,
) -> Result<Status, Usage>
    ensures done { is_ok result ≡ is_some (wanted_of command.now) }
    ensures shown { IfErr result IsNoRequest }
{
    work(rt, command, wanted_of(command))
}
