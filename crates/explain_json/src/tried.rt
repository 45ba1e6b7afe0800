//! The intervals that were tried.

ghost use Rattle.std.specs.Prelude.{◌≡◌, ◌≤◌, [], ◌++◌, map, IfOk, OnOk};
ghost use Rattle.serde_json.specs.Data.{object};
ghost use Rattle.serde_json.specs.View.{members_view, view};
ghost use Rattle.modulo.specs.declared.outcome.attempts.Culprit.TheVariants.{Late};
ghost use Rattle.told_choices.specs.declared.why.Why.TheVariants.{Attempt, Register, Need};
ghost use Rattle.explain_json.specs.Parts.{counts_value};
ghost use Rattle.explain_json.specs.inner.Objects.{failure_members, life_members};
ghost use Rattle.explain_json.specs.Tries.{chosen_try, failure_object, failures_from, kernel_try, tried_value};

use crate::values::told_need;
use ims::Culprit;
use json_objects::{object_of, with, with_value};
use loop_schedules::Prepared;
use machine_data::OutOfMemory;
use rotating::Lifetime;
use serde_json::{Map, ToValue, Value};
use std::alloc::Global;
use told_choices::{Chosen, Told, Why};

/// The numbers of operations, in order.
fn told_numbers(alloc: Global, ops: &[usize]) -> Result<Value, OutOfMemory>
    ensures { IfOk result (λ v. view v ≡ counts_value ops.now) }
{
    let mut values = Vec::with_capacity(alloc, ops.len())?;
    for op in ops {
        values.push(Value::from(*op))?;
    }
    Ok(Value::Array(values))
}

/// What is told of an interval with this outcome, and operations.
fn members_of(
    alloc: Global,
    interval: u64,
    ops: &[usize],
    outcome: &str,
) -> Result<Map<String, Value>, OutOfMemory>
    ensures { IfOk result (λ m. members_view m.entries ≡ failure_members interval ops.now outcome.now) }
{
    let members = Ok(Map::new(alloc));
    let members = with_value(alloc, members, "interval", Value::from(interval));
    let members = with(alloc, members, "operations", told_numbers(alloc, ops));
    with(alloc, members, "outcome", outcome.to_value(alloc))
}

/// An interval with this outcome, and operations.
fn told_ops(
    alloc: Global,
    interval: u64,
    ops: &[usize],
    outcome: &str,
) -> Result<Value, OutOfMemory>
    ensures { IfOk result (λ v. view v ≡ object (failure_members interval ops.now outcome.now)) }
{
    object_of(members_of(alloc, interval, ops, outcome))
}

/// An interval at which an operation is too late, and when it is issued.
fn told_late(alloc: Global, interval: u64, op: usize, time: u64) -> Result<Value, OutOfMemory>
    ensures { IfOk result (λ v. view v ≡ failure_object interval (Attempt (Late op time))) }
{
    let members = members_of(alloc, interval, &[op], "stages");
    object_of(with_value(alloc, members, "time", Value::from(time)))
}

/// What is told of an interval at which a value has no register: when it lives.
fn with_life(
    alloc: Global,
    interval: u64,
    life: Lifetime,
) -> Result<Map<String, Value>, OutOfMemory>
    ensures { IfOk result (λ m. members_view m.entries ≡ life_members interval life) }
{
    let maker = usize::from(life.operation);
    let members = members_of(alloc, interval, &[maker], "registers");
    let members = with_value(alloc, members, "first", Value::from(life.first));
    with_value(alloc, members, "last", Value::from(life.last))
}

/// An interval at which a value has no register, and when it lives.
fn told_life(alloc: Global, interval: u64, life: Lifetime) -> Result<Value, OutOfMemory>
    ensures { IfOk result (λ v. view v ≡ failure_object interval (Register life)) }
{
    object_of(with_life(alloc, interval, life))
}

/// The same, with how many registers all values need.
fn told_with_need(
    alloc: Global,
    interval: u64,
    life: Lifetime,
    need: Option<u64>,
) -> Result<Value, OutOfMemory>
    ensures { IfOk result (λ v. view v ≡ failure_object interval (Need life need)) }
{
    let members = with_life(alloc, interval, life);
    object_of(with_value(alloc, members, "need", told_need(need)))
}

/// An interval that gives no kernel, and why.
fn told_failure(alloc: Global, interval: u64, reason: &Why) -> Result<Value, OutOfMemory>
    ensures { IfOk result (λ v. view v ≡ failure_object interval reason.now) }
{
    match reason {
        Why::Attempt(Culprit::Blocked(op)) => told_ops(alloc, interval, &[*op], "table"),
        Why::Attempt(Culprit::Unplaced(ops)) => {
            told_ops(alloc, interval, ops.as_slice(), "budget")
        }
        Why::Attempt(Culprit::Late(op, time)) => told_late(alloc, interval, *op, *time),
        Why::Register(life) => told_life(alloc, interval, *life),
        Why::Need(life, need) => told_with_need(alloc, interval, *life, *need),
    }
}

/// Intervals that give no kernel, from the least one on.
fn told_failures(alloc: Global, least: u64, reasons: &[Why]) -> Result<Vec<Value>, OutOfMemory>
    requires { least ≤ 8192 }
    ensures { IfOk result (λ values. map view values.items ≡ failures_from least reasons.now) }
{
    let mut values = Vec::with_capacity(alloc, reasons.len())?;
    for number in 0..reasons.len() {
        values.push(told_failure(alloc, least + number as u64, &reasons[number])?)?;
    }
    Ok(values)
}

/// Adds the interval that is chosen, where there is one.
fn push_chosen(alloc: Global, values: &mut Vec<Value>, chosen: &Chosen) -> Result<(), OutOfMemory>
    ensures ok { OnOk result (map view values.new.items ≡ map view values.old.items ++ chosen_try chosen.now) }
{
    match chosen {
        Chosen::Met(interval, met, _) => {
            let stages = met.kernel.parts().stages;
            Ok(values.push(told_kernel(alloc, *interval, stages)?)?)
        }
        Chosen::Failed(_) => Ok(()),
    }
}

/// An interval that gives a kernel of so many stages.
fn told_kernel(alloc: Global, interval: u64, stages: u64) -> Result<Value, OutOfMemory>
    ensures { IfOk result (λ v. view v ≡ kernel_try interval stages) }
{
    let members = Ok(Map::new(alloc));
    let members = with_value(alloc, members, "interval", Value::from(interval));
    let members = with(alloc, members, "outcome", "kernel".to_value(alloc));
    object_of(with_value(alloc, members, "stages", Value::from(stages)))
}

/// All intervals that were tried.
pub(crate) fn told_tried(
    alloc: Global,
    prepared: &Prepared,
    told: &Told,
) -> Result<Value, OutOfMemory>
    ensures { IfOk result (λ v. view v ≡ tried_value prepared.now told.now) }
{
    let mut values = told_failures(alloc, prepared.mii(), told.reasons.as_slice())?;
    push_chosen(alloc, &mut values, &told.chosen)?;
    Ok(Value::Array(values))
}
