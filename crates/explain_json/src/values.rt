//! The values of a scheduled loop, how many of them live in each row, and numbers for each unit.

ghost use Rattle.std.specs.Prelude.{◌≡◌, ◌<◌, length, IfOk};
ghost use Rattle.std.specs.List.{All};
ghost use Rattle.serde_json.specs.View.{view};
ghost use Rattle.machine_data.specs.declared.limits.TheConstants.{MAX_UNITS};
ghost use Rattle.figures.specs.Slots.{percent_of};
ghost use Rattle.explain_json.specs.Kernels.{value_object, values_value};
ghost use Rattle.explain_json.specs.Parts.{array_of, count_value, counts_value, need_value};

use figures::Takers;
use json_objects::{object_of, with_value};
use machine_data::OutOfMemory;
use rotating::Lifetime;
use serde_json::{Map, Value};
use std::alloc::Global;

/// A value with this lifetime and the number of its register.
fn told_value(alloc: Global, life: Lifetime, number: usize) -> Result<Value, OutOfMemory>
    ensures { IfOk result (λ v. view v ≡ value_object life number) }
{
    let members = Ok(Map::new(alloc));
    let members = with_value(alloc, members, "first", Value::from(life.first));
    let members = with_value(alloc, members, "last", Value::from(life.last));
    let members = with_value(alloc, members, "operation", Value::from(life.operation));
    object_of(with_value(alloc, members, "register", Value::from(number)))
}

/// All values, each with the number at its place.
pub(crate) fn told_values(
    alloc: Global,
    lives: &[Lifetime],
    numbers: &[usize],
) -> Result<Value, OutOfMemory>
    requires each { length numbers.now ≡ length lives.now }
    ensures { IfOk result (λ v. view v ≡ values_value lives.now numbers.now) }
{
    let mut values = Vec::with_capacity(alloc, lives.len())?;
    for k in 0..lives.len() {
        values.push(told_value(alloc, lives[k], numbers[k])?)?;
    }
    Ok(Value::Array(values))
}

/// How many registers values need.
pub(crate) fn told_need(need: Option<u64>) -> Value
    ensures { view result ≡ need_value need }
{
    match need {
        Some(registers) => Value::from(registers),
        None => Value::Null,
    }
}

/// In how many hundredths of the interval each of these units is taken.
pub(crate) fn told_percents(
    alloc: Global,
    takers: &Takers,
    used: &[u8],
) -> Result<Value, OutOfMemory>
    requires { All (λ unit. unit < MAX_UNITS) used.now }
    ensures { IfOk result (λ v. view v ≡ array_of (λ unit. count_value (percent_of takers.now unit)) used.now) }
{
    let mut values = Vec::with_capacity(alloc, used.len())?;
    for unit in used {
        values.push(Value::from(takers.percent(*unit)))?;
    }
    Ok(Value::Array(values))
}

/// How many registers are live in each row.
pub(crate) fn told_counts(alloc: Global, counts: &[u64]) -> Result<Value, OutOfMemory>
    ensures { IfOk result (λ v. view v ≡ counts_value counts.now) }
{
    let mut values = Vec::with_capacity(alloc, counts.len())?;
    for count in counts {
        values.push(Value::from(*count))?;
    }
    Ok(Value::Array(values))
}
