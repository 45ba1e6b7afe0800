//! The names of operations and of units.

ghost use Rattle.std.specs.Prelude.{◌≡◌, ◌<◌, length, IfOk};
ghost use Rattle.std.specs.List.{All};
ghost use Rattle.serde_json.specs.Data.{string};
ghost use Rattle.serde_json.specs.View.{view};
ghost use Rattle.graph_text.specs.Names.{op_name};
ghost use Rattle.explain_json.specs.Parts.{array_of};
ghost use Rattle.explain_json.specs.Units.{unit_name};

use graph_text::push_name;
use loop_data::Loop;
use machine_data::limits::MAX_STATEMENTS;
use machine_data::{Machine, OutOfMemory};
use serde_json::{ToValue, Value};
use std::alloc::Global;

/// The name of the operation of this number.
pub(crate) fn told_name(
    alloc: Global,
    innermost: &Loop,
    number: usize,
) -> Result<Value, OutOfMemory>
    requires { number < length innermost.now.statements }
    ensures { IfOk result (λ v. view v ≡ string (op_name innermost.now number)) }
{
    prove!(innermost.statements().len() <= MAX_STATEMENTS);
    let mut word = String::new(alloc);
    push_name(&mut word, innermost, number as u8)?;
    Ok(Value::String(word))
}

/// The name of a unit.
pub(crate) fn told_unit_name(
    alloc: Global,
    machine: &Machine,
    unit: u8,
) -> Result<Value, OutOfMemory>
    requires { unit < length machine.now.units }
    ensures { IfOk result (λ v. view v ≡ string (unit_name machine.now unit)) }
{
    let units = machine.units();
    units[usize::from(unit)].as_str().to_value(alloc)
}

/// The names of units, in order.
pub(crate) fn told_unit_names(
    alloc: Global,
    machine: &Machine,
    units: &[u8],
) -> Result<Value, OutOfMemory>
    requires { All (λ unit. unit < length machine.now.units) units.now }
    ensures { IfOk result (λ v. view v ≡ array_of (λ unit. string (unit_name machine.now unit)) units.now) }
{
    let mut values = Vec::with_capacity(alloc, units.len())?;
    for unit in units {
        values.push(told_unit_name(alloc, machine, *unit)?)?;
    }
    Ok(Value::Array(values))
}
