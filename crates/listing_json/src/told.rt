//! What can be told as a JSON value.

ghost use Rattle.std.specs.Prelude.{◌≡◌, IfOk};
ghost use Rattle.serde_json.specs.Data.{Data, no_members, object, put};
ghost use Rattle.serde_json.specs.View.{view};
ghost use Rattle.listing_json.specs.Documents.{digits_value, list_value, one_member};

use json_objects::{object_of, with};
use machine_data::{Name, OutOfMemory};
use serde_json::{Map, ToValue, Value};
use std::alloc::Global;
use writing::push_integer;

/// A part of a listing that has a JSON value.
pub(crate) trait Told {
    ghost value: { Self → Data };

    /// Its value.
    fn told(&self, alloc: Global) -> Result<Value, OutOfMemory>
        ensures { IfOk result (λ v. view v ≡ value self.now) };
}

impl Told for Name {
    ghost use Rattle.listing_json.specs.Documents.{string_value};

    ghost value = { string_value };

    fn told(&self, alloc: Global) -> Result<Value, OutOfMemory> {
        self.as_str().to_value(alloc)
    }
}

/// The values of a list, in order.
pub(crate) fn told_all<T: Told>(alloc: Global, list: &[T]) -> Result<Value, OutOfMemory>
    ensures { IfOk result (λ v. view v ≡ list_value T.Told.value list.now) }
{
    let mut values = Vec::with_capacity(alloc, list.len())?;
    for part in list {
        values.push(part.told(alloc)?)?;
    }
    Ok(Value::Array(values))
}

/// An object of one member, where its value was made.
pub(crate) fn told_one(
    alloc: Global,
    key: &str,
    value: Result<Value, OutOfMemory>,
) -> Result<Value, OutOfMemory>
    ensures { (d : Data) → IfOk value (λ v. view v ≡ d) → IfOk result (λ v. view v ≡ one_member key.now d) }
{
    object_of(with(alloc, Ok(Map::new(alloc)), key, value))
}

/// An object of two members, where their values were made.
pub(crate) fn told_two(
    alloc: Global,
    key: &str,
    value: Result<Value, OutOfMemory>,
    other: &str,
    second: Result<Value, OutOfMemory>,
) -> Result<Value, OutOfMemory>
    ensures { (d e : Data) → IfOk value (λ v. view v ≡ d) → IfOk second (λ v. view v ≡ e) → IfOk result (λ v. view v ≡ object (put other.now e (put key.now d no_members))) }
{
    let members = with(alloc, Ok(Map::new(alloc)), key, value);
    object_of(with(alloc, members, other, second))
}

/// The digits of a number of 64 bits, as a string.
pub(crate) fn told_digits(alloc: Global, number: i64) -> Result<Value, OutOfMemory>
    ensures { IfOk result (λ v. view v ≡ digits_value number) }
{
    let mut digits = String::new(alloc);
    push_integer(&mut digits, number)?;
    Ok(Value::String(digits))
}
