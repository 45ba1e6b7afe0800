//! What is printed of the faults of a machine text and of a loop text.

ghost use Rattle.std.specs.Prelude.{◌≡◌, ◌++◌, IfOk, OnOk, nat_lt, length};
ghost use Rattle.lint_text.specs.Printout.{AreOfLoops, AreOfMachine, IsLintText, IsSilent, SilentOn, loop_lines, machine_in, machine_lines};

use crate::lines::push_loop_faults;
use crate::machines::push_machine_faults;
use loop_lint::{LoopLint, lint_loops_for};
use machine::read_machine;
use machine_data::{Machine, OutOfMemory};
use machine_lint::{MachineLint, lint_machine};
use std::alloc::{AllocError, Global};

/// A text with the path by which its faults are told.
#[derive(Clone, Copy)]
pub struct Named<'a> {
    pub path: &'a str,
    pub text: &'a [u8],
}

/// The lines of faults, with whether there are any.
#[derive(Drop)]
pub struct LintText {
    /// The lines of the faults of the machine text, and then those of the loop text.
    pub text: Vec<u8>,
    /// The machine text has a fault.
    pub machine_faults: bool,
    /// The loop text has a fault.
    pub loop_faults: bool,
}

/// The faults of a machine text, if one is given.
pub(crate) fn machine_lints(
    alloc: Global,
    machine: Option<Named<'_>>,
) -> Result<Vec<MachineLint>, OutOfMemory>
    ensures { IfOk result (λ lints. AreOfMachine machine.entry lints.items) }
{
    match machine {
        Some(named) => lint_machine(alloc, named.text),
        None => Ok(Vec::new(alloc)),
    }
}

/// The machine of a text without faults, if one is given.
#[tactic(auto, using(crate::proofs::Sound::faulty_none, crate::proofs::Sound::sound_some))]
fn sound_machine(
    alloc: Global,
    machine: Option<Named<'_>>,
    lints: &[MachineLint],
) -> Result<Option<Machine>, OutOfMemory>
    requires { AreOfMachine machine lints.now }
    ensures { IfOk result (λ sound. sound ≡ machine_in machine.entry) }
{
    let Some(named) = machine else {
        return Ok(None);
    };
    if !lints.is_empty() {
        return Ok(None);
    }
    match read_machine(alloc, named.text) {
        Ok(machine) => Ok(Some(machine)),
        Err(_) => Err(AllocError),
    }
}

/// What is told of a loop text, if one is given, on the machine of a text of which this is told.
pub(crate) fn loop_lints(
    alloc: Global,
    machine: Option<Named<'_>>,
    loops: Option<Named<'_>>,
    lints: &[MachineLint],
) -> Result<Vec<LoopLint>, OutOfMemory>
    requires { AreOfMachine machine lints.now }
    ensures told { IfOk result (λ faults. AreOfLoops machine.entry loops.entry faults.items) }
    ensures silent { IfOk result (λ faults. SilentOn (machine_in machine.entry) loops.entry faults.items) }
{
    let Some(named) = loops else {
        return Ok(Vec::new(alloc));
    };
    let sound = sound_machine(alloc, machine, lints)?;
    lint_loops_for(alloc, named.text, sound.as_ref())
}

/// Pushes the lines of the faults of a machine text, if one is given.
fn push_machine(
    alloc: Global,
    text: &mut Vec<u8>,
    machine: Option<Named<'_>>,
    lints: &[MachineLint],
) -> Result<(), OutOfMemory>
    ensures { OnOk result (text.new.items ≡ text.old.items ++ machine_lines machine.entry lints.now) }
{
    match machine {
        Some(named) => push_machine_faults(alloc, text, named.path, named.text, lints),
        None => Ok(()),
    }
}

/// Pushes the lines of the faults of a loop text, if one is given.
fn push_loops(
    alloc: Global,
    text: &mut Vec<u8>,
    loops: Option<Named<'_>>,
    faults: &[LoopLint],
) -> Result<(), OutOfMemory>
    ensures { OnOk result (text.new.items ≡ text.old.items ++ loop_lines loops.entry faults.now) }
{
    match loops {
        Some(named) => push_loop_faults(alloc, text, named.path, named.text, faults),
        None => Ok(()),
    }
}

/// The lines of the faults of both texts, the machine's first.
fn lines_of(
    alloc: Global,
    machine: Option<Named<'_>>,
    loops: Option<Named<'_>>,
    lints: &[MachineLint],
    faults: &[LoopLint],
) -> Result<Vec<u8>, OutOfMemory>
    ensures { IfOk result (λ text. text.items ≡ machine_lines machine.entry lints.now ++ loop_lines loops.entry faults.now) }
{
    let mut text = Vec::new(alloc);
    push_machine(alloc, &mut text, machine, lints)?;
    push_loops(alloc, &mut text, loops, faults)?;
    Ok(text)
}

/// A line for each fault of a machine text and of a loop text, if they are given: those of the machine first.
///
/// # Errors
/// Memory ran out, which says nothing of the texts.
#[tactic(auto, using(crate::proofs::Sound::is_silent))]
pub fn lint_printout(
    alloc: Global,
    machine: Option<Named<'_>>,
    loops: Option<Named<'_>>,
) -> Result<LintText, OutOfMemory>
    ensures exact { IfOk result (λ printed. IsLintText machine.entry loops.entry printed) }
    ensures silent { IfOk result (λ printed. IsSilent machine.entry loops.entry printed) }
{
    let lints = machine_lints(alloc, machine)?;
    let faults = loop_lints(alloc, machine, loops, &lints)?;
    Ok(LintText {
        text: lines_of(alloc, machine, loops, &lints, &faults)?,
        machine_faults: !lints.is_empty(),
        loop_faults: !faults.is_empty(),
    })
}
