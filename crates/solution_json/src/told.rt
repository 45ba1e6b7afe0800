//! The parts of a problem by their names.

ghost use Rattle.std.specs.Prelude.{◌≡◌, decimal, IfOk};
ghost use Rattle.serde_json.specs.Data.{string};
ghost use Rattle.serde_json.specs.View.{view};
ghost use Rattle.solution_text.specs.Names.{name_in};
ghost use Rattle.solution_json.specs.Parts.{array_of};

use itoa::Buffer;
use machine_data::OutOfMemory;
use problems::Label;
use serde_json::{ToValue, Value};
use std::alloc::Global;

/// The digits of a number.
fn told_digits(alloc: Global, number: usize) -> Result<Value, OutOfMemory>
    ensures { IfOk result (λ v. view v ≡ string (decimal number)) }
{
    let mut digits = Buffer::new();
    digits.format(number).to_value(alloc)
}

/// The name with a number, or where there is none the number.
pub(crate) fn told_name(alloc: Global, names: &[Label], number: usize) -> Result<Value, OutOfMemory>
    ensures { IfOk result (λ v. view v ≡ string (name_in names.now number)) }
{
    match names.get(number) {
        Some(name) => name.as_str().to_value(alloc),
        None => told_digits(alloc, number),
    }
}

/// The names with these numbers, in order.
pub(crate) fn told_names(
    alloc: Global,
    names: &[Label],
    numbers: &[usize],
) -> Result<Value, OutOfMemory>
    ensures { IfOk result (λ v. view v ≡ array_of (λ number. string (name_in names.now number)) numbers.now) }
{
    let mut values = Vec::with_capacity(alloc, numbers.len())?;
    for number in numbers {
        values.push(told_name(alloc, names, *number)?)?;
    }
    Ok(Value::Array(values))
}
