//! Copies of what a text has, for drafts.

ghost use Rattle.std.specs.Prelude.{◌≡◌, ◌++◌, map, IfOk};
ghost use Rattle.smallvec.specs.SmallVec.{SmallVec as Items};
ghost use Rattle.problems.specs.declared.draft.Hold.{Hold};
ghost use Rattle.problem_tables.specs.Data.{kind_seen};
ghost use Rattle.problem_tables.specs.Seen.{machine_seen, problem_seen};
ghost use Rattle.problem_tables.specs.Data.{MachineData};
ghost use Rattle.problem_reader.specs.Files.{IsDraftOf};
ghost use Rattle.problem_reader.specs.inner.OnMachines.{IsOnMachine};

use machine_data::OutOfMemory;
use problem_tables::{TextMachine, TextProblem};
use problems::{Draft, Hold, Kind, Label, Names};
use smallvec::SmallVec;
use std::alloc::Global;

/// The same names once more.
fn labels_of(alloc: Global, labels: &[Label]) -> Result<Vec<Label>, OutOfMemory>
    ensures { IfOk result (λ copies. copies.items ≡ labels.now) }
{
    let mut copies = Vec::with_capacity(alloc, labels.len())?;
    for label in labels {
        copies.push(label.copied())?;
    }
    Ok(copies)
}

/// The same alternatives once more.
fn alternatives_of(
    alloc: Global,
    alternatives: &[SmallVec<Hold, 2>],
) -> Result<SmallVec<SmallVec<Hold, 2>, 2>, OutOfMemory>
    ensures { IfOk result (λ copies. map (λ (rows : Items Hold). rows.items) copies.items ≡ map (λ (rows : Items Hold). rows.items) alternatives.now) }
{
    let mut copies = SmallVec::with_capacity(alloc, alternatives.len())?;
    for rows in alternatives {
        copies.push(SmallVec::from_slice(alloc, rows.as_slice())?)?;
    }
    Ok(copies)
}

/// The same kind once more.
fn kind_of(alloc: Global, kind: &Kind) -> Result<Kind, OutOfMemory>
    ensures { IfOk result (λ copy. kind_seen copy ≡ kind_seen kind.now) }
{
    let alternatives = alternatives_of(alloc, kind.alternatives.as_slice())?;
    Ok(Kind {
        latency: kind.latency,
        alternatives,
    })
}

/// The same kinds once more.
fn kinds_of(alloc: Global, kinds: &[Kind]) -> Result<Vec<Kind>, OutOfMemory>
    ensures { IfOk result (λ copies. map kind_seen copies.items ≡ map kind_seen kinds.now) }
{
    let mut copies = Vec::with_capacity(alloc, kinds.len())?;
    for kind in kinds {
        copies.push(kind_of(alloc, kind)?)?;
    }
    Ok(copies)
}

/// The names of a problem and its machine.
fn names_of(
    alloc: Global,
    machine: &TextMachine,
    problem: &TextProblem,
) -> Result<Names, OutOfMemory>
    ensures units { IfOk result (λ names. names.units.items ≡ machine.now.units.items) }
    ensures files { IfOk result (λ names. names.files.items ≡ machine.now.file_names.items) }
    ensures kinds { IfOk result (λ names. names.kinds.items ≡ machine.now.kind_names.items) }
    ensures operations { IfOk result (λ names. names.operations.items ≡ problem.now.operation_names.items) }
    ensures values { IfOk result (λ names. names.values.items ≡ problem.now.value_names.items) }
{
    Ok(Names {
        units: labels_of(alloc, machine.units.as_slice())?,
        files: labels_of(alloc, machine.file_names.as_slice())?,
        kinds: labels_of(alloc, machine.kind_names.as_slice())?,
        operations: labels_of(alloc, problem.operation_names.as_slice())?,
        values: labels_of(alloc, problem.value_names.as_slice())?,
    })
}

/// The draft of a problem on its machine.
pub(crate) fn draft_of(
    alloc: Global,
    machine: &TextMachine,
    problem: &TextProblem,
) -> Result<Draft, OutOfMemory>
    ensures { IfOk result (IsDraftOf (machine_seen machine.now) (problem_seen problem.now)) }
{
    Ok(Draft {
        units: machine.units.len(),
        files: Vec::from_slice(alloc, machine.files.as_slice())?,
        kinds: kinds_of(alloc, machine.kinds.as_slice())?,
        operations: Vec::from_slice(alloc, problem.operations.as_slice())?,
        values: Vec::from_slice(alloc, problem.values.as_slice())?,
        reads: Vec::from_slice(alloc, problem.reads.as_slice())?,
        orders: Vec::from_slice(alloc, problem.orders.as_slice())?,
        names: names_of(alloc, machine, problem)?,
    })
}

/// Has the names of a list be these, in the memory of the list.
fn rename(names: &mut Vec<Label>, labels: &[Label]) -> Result<(), OutOfMemory>
    ensures { IfOk result (λ _. names.new.items ≡ labels.now) }
{
    names.clear();
    names.reserve(labels.len())?;
    for label in labels {
        names.push(label.copied())?;
    }
    Ok(())
}

/// Has the items of a list be these, in the memory of the list.
fn refill<T: Copy>(items: &mut Vec<T>, others: &[T]) -> Result<(), OutOfMemory>
    ensures { IfOk result (λ _. items.new.items ≡ others.now) }
{
    items.clear();
    items.extend_from_slice(others)
}

/// The draft of a problem, of the draft of another one on the same machine: what both share is not copied again.
pub(crate) fn redraft_of(draft: Draft, problem: &TextProblem) -> Result<Draft, OutOfMemory>
    ensures { IfOk result (λ made. (machine : MachineData) → IsOnMachine machine draft → IsDraftOf machine (problem_seen problem.now) made) }
{
    let mut draft = draft;
    refill(&mut draft.operations, problem.operations.as_slice())?;
    refill(&mut draft.values, problem.values.as_slice())?;
    refill(&mut draft.reads, problem.reads.as_slice())?;
    refill(&mut draft.orders, problem.orders.as_slice())?;
    rename(
        &mut draft.names.operations,
        problem.operation_names.as_slice(),
    )?;
    rename(&mut draft.names.values, problem.value_names.as_slice())?;
    Ok(draft)
}
