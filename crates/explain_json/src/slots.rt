//! The slots of the modulo reservation table that are taken.

ghost use Rattle.std.specs.Prelude.{◌≡◌, ◌<◌, ◌++◌, map, IfOk, OnOk};
ghost use Rattle.std.specs.List.{All};
ghost use Rattle.serde_json.specs.Data.{array};
ghost use Rattle.serde_json.specs.View.{items_of, view};
ghost use Rattle.machine_data.specs.declared.limits.TheConstants.{MAX_UNITS};
ghost use Rattle.explain_json.specs.Kernels.{row_slots, slot_objects, slots_of};
ghost use Rattle.explain_json.specs.inner.Objects.{slot_object};

use figures::Takers;
use json_objects::{object_of, with_value};
use machine_data::OutOfMemory;
use serde_json::{Map, Value};
use std::alloc::Global;

/// The slot of a row and of the unit of a place, which an operation takes.
fn told_slot(alloc: Global, row: u64, place: usize, op: usize) -> Result<Value, OutOfMemory>
    ensures { IfOk result (λ v. view v ≡ slot_object row place op) }
{
    let members = Ok(Map::new(alloc));
    let members = with_value(alloc, members, "operation", Value::from(op));
    let members = with_value(alloc, members, "row", Value::from(row));
    object_of(with_value(alloc, members, "unit", Value::from(place)))
}

/// Adds the slot of a row and of the unit of a place, if an operation takes it.
fn push_slot(
    alloc: Global,
    values: &mut Vec<Value>,
    row: u64,
    place: usize,
    taker: Option<usize>,
) -> Result<(), OutOfMemory>
    ensures ok { OnOk result (map view values.new.items ≡ map view values.old.items ++ slot_objects row place taker) }
{
    let Some(op) = taker else {
        return Ok(());
    };
    let value = told_slot(alloc, row, place, op)?;
    Ok(values.push(value)?)
}

/// Adds the slots of a row that are taken.
fn push_row(
    alloc: Global,
    values: &mut Vec<Value>,
    takers: &Takers,
    used: &[u8],
    row: u64,
) -> Result<(), OutOfMemory>
    requires row { row < takers.now.ii }
    requires units { All (λ unit. unit < MAX_UNITS) used.now }
    ensures ok { OnOk result (map view values.new.items ≡ map view values.old.items ++ row_slots takers.now used.now row) }
{
    for place in 0..used.len() {
        push_slot(alloc, values, row, place, takers.taker(used[place], row))?;
    }
    Ok(())
}

/// All slots that are taken, row by row; the units are those that operations take.
pub(crate) fn told_slots(
    alloc: Global,
    takers: &Takers,
    used: &[u8],
    ii: u64,
) -> Result<Value, OutOfMemory>
    requires rows { takers.now.ii ≡ ii }
    requires units { All (λ unit. unit < MAX_UNITS) used.now }
    ensures { IfOk result (λ v. view v ≡ array (items_of (slots_of takers.now used.now))) }
{
    let mut values = Vec::new(alloc);
    for row in 0..ii {
        push_row(alloc, &mut values, takers, used, row)?;
    }
    Ok(Value::Array(values))
}
