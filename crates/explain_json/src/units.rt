//! The units that the resource-constrained bound of a loop counts, and the fullest set of units.

ghost use Rattle.std.specs.Prelude.{◌≡◌, ◌<◌, ◌≤◌, ◌*◌, [], ◌∷◌, ◌++◌, map, length, filter, IfOk, OnOk};
ghost use Rattle.serde_json.specs.Data.{array, string};
ghost use Rattle.serde_json.specs.View.{items_of, view};
ghost use Rattle.unit_sets.specs.Fullest.{units_in};
ghost use Rattle.unit_sets.specs.Sets.{is_in};
ghost use Rattle.resource_bound.specs.Choices.{rows_at};
ghost use Rattle.explain_json.specs.Parts.{array_of};
ghost use Rattle.explain_json.specs.inner.Objects.{unit_object, user_object};
ghost use Rattle.explain_json.specs.Units.{set_object, unit_name, unit_objects, units_of, units_value, use_by, user_objects, users_of, uses_of};

use crate::names::{told_unit_name, told_unit_names};
use json_objects::{object_of, with, with_value};
use loop_schedules::Prepared;
use machine_data::{Machine, OutOfMemory, Row};
use resource_bound::rows_by;
use serde_json::{Map, Value};
use std::alloc::Global;
use unit_sets::UnitSet;

/// The rows of the alternative that the operation of this number takes, none where there is no such alternative.
fn rows_at<'a>(prepared: &'a Prepared, choices: &[u8], op: usize) -> &'a [Row]
    requires there { op < length prepared.now.operations }
    requires chosen { op < length choices.now }
    ensures value { result.now ≡ rows_at prepared.now.operations choices.now op }
    ensures few { length result.now ≤ 16 }
{
    rows_by(prepared.alternatives()[op].as_slice(), choices[op])
}

/// By how many rows an operation uses a unit.
fn use_by(prepared: &Prepared, choices: &[u8], unit: u8, op: usize) -> usize
    requires there { op < length prepared.now.operations }
    requires chosen { op < length choices.now }
    ensures value { result ≡ use_by prepared.now choices.now unit op }
    ensures few { result ≤ 16 }
{
    rows_at(prepared, choices, op)
        .iter()
        .filter(|row| row.unit == unit)
        .count()
}

/// By how many rows all operations use a unit.
fn uses_of(prepared: &Prepared, choices: &[u8], unit: u8) -> usize
    requires { length choices.now ≡ length prepared.now.operations }
    ensures { result ≡ uses_of prepared.now choices.now unit }
{
    let mut uses = 0;
    for op in 0..prepared.operations() {
        uses += use_by(prepared, choices, unit, op);
    }
    uses
}

/// An operation with by how many rows it uses a unit.
fn told_user(alloc: Global, op: usize, uses: usize) -> Result<Value, OutOfMemory>
    ensures { IfOk result (λ v. view v ≡ user_object op uses) }
{
    let members = Ok(Map::new(alloc));
    let members = with_value(alloc, members, "operation", Value::from(op));
    object_of(with_value(alloc, members, "uses", Value::from(uses)))
}

/// Adds an operation with by how many rows it uses a unit, if it does.
fn push_user(
    alloc: Global,
    values: &mut Vec<Value>,
    op: usize,
    uses: usize,
) -> Result<(), OutOfMemory>
    ensures ok { OnOk result (map view values.new.items ≡ map view values.old.items ++ user_objects op uses) }
{
    if uses == 0 {
        return Ok(());
    }
    Ok(values.push(told_user(alloc, op, uses)?)?)
}

/// The operations that use a unit.
fn told_users(
    alloc: Global,
    prepared: &Prepared,
    choices: &[u8],
    unit: u8,
) -> Result<Value, OutOfMemory>
    requires { length choices.now ≡ length prepared.now.operations }
    ensures { IfOk result (λ v. view v ≡ array (items_of (users_of prepared.now choices.now unit))) }
{
    let mut values = Vec::new(alloc);
    for op in 0..prepared.operations() {
        push_user(alloc, &mut values, op, use_by(prepared, choices, unit, op))?;
    }
    Ok(Value::Array(values))
}

/// A unit that is used by so many rows.
fn told_unit(
    alloc: Global,
    machine: &Machine,
    prepared: &Prepared,
    choices: &[u8],
    unit: u8,
    uses: usize,
) -> Result<Value, OutOfMemory>
    requires there { unit < length machine.now.units }
    requires each { length choices.now ≡ length prepared.now.operations }
    ensures { IfOk result (λ v. view v ≡ unit_object machine.now prepared.now choices.now unit uses) }
{
    let full = Value::from(uses as u64 == prepared.resources());
    let users = told_users(alloc, prepared, choices, unit);
    let members = with_value(alloc, Ok(Map::new(alloc)), "full", full);
    let name = told_unit_name(alloc, machine, unit);
    let members = with(alloc, members, "name", name);
    let members = with(alloc, members, "users", users);
    object_of(with_value(alloc, members, "uses", Value::from(uses)))
}

/// Adds a unit that is used by so many rows, if it is.
fn push_unit(
    alloc: Global,
    values: &mut Vec<Value>,
    machine: &Machine,
    prepared: &Prepared,
    choices: &[u8],
    unit: u8,
    uses: usize,
) -> Result<(), OutOfMemory>
    requires there { unit < length machine.now.units }
    requires each { length choices.now ≡ length prepared.now.operations }
    ensures ok { OnOk result (map view values.new.items ≡ map view values.old.items ++ unit_objects machine.now prepared.now choices.now unit uses) }
{
    if uses == 0 {
        return Ok(());
    }
    let value = told_unit(alloc, machine, prepared, choices, unit, uses)?;
    Ok(values.push(value)?)
}

/// The units that are used, in the machine's order.
pub(crate) fn told_units(
    alloc: Global,
    machine: &Machine,
    prepared: &Prepared,
    choices: &[u8],
) -> Result<Value, OutOfMemory>
    requires { length choices.now ≡ length prepared.now.operations }
    ensures { IfOk result (λ v. view v ≡ units_value machine.now prepared.now choices.now) }
{
    let mut values = Vec::new(alloc);
    for unit in 0..machine.units().len() {
        let unit = unit as u8;
        let uses = uses_of(prepared, choices, unit);
        push_unit(alloc, &mut values, machine, prepared, choices, unit, uses)?;
    }
    Ok(Value::Array(values))
}

/// Adds a unit, if it is one of the set.
fn push_member(units: &mut Vec<u8>, set: &UnitSet, unit: u8) -> Result<(), OutOfMemory>
    ensures { OnOk result (units.new.items ≡ units.old.items ++ filter (is_in (units_in set.now.units)) (unit ∷ [])) }
{
    if set.has(unit) {
        units.push(unit)?;
    }
    Ok(())
}

/// The units of a set that the machine has, in its order.
fn members_of(alloc: Global, machine: &Machine, set: &UnitSet) -> Result<Vec<u8>, OutOfMemory>
    ensures { IfOk result (λ units. units.items ≡ filter (is_in (units_in set.now.units)) (units_of machine.now)) }
{
    let mut units = Vec::new(alloc);
    for unit in 0..machine.units().len() {
        push_member(&mut units, set, unit as u8)?;
    }
    Ok(units)
}

/// The names of the units of a set.
fn told_members(alloc: Global, machine: &Machine, set: &UnitSet) -> Result<Value, OutOfMemory>
    ensures { IfOk result (λ v. view v ≡ array_of (λ unit. string (unit_name machine.now unit)) (filter (is_in (units_in set.now.units)) (units_of machine.now))) }
{
    let units = members_of(alloc, machine, set)?;
    told_unit_names(alloc, machine, units.as_slice())
}

/// The fullest set of units.
pub(crate) fn told_set(
    alloc: Global,
    machine: &Machine,
    set: &UnitSet,
) -> Result<Value, OutOfMemory>
    ensures { IfOk result (λ v. view v ≡ set_object machine.now set.now) }
{
    let members = Ok(Map::new(alloc));
    let members = with_value(alloc, members, "need", Value::from(set.need));
    let members = with_value(alloc, members, "rows", Value::from(set.rows));
    object_of(with(alloc, members, "units", told_members(alloc, machine, set)))
}
