//! Objects that are built member by member, where `json!` would have too many ways out.

ghost use Rattle.std.specs.Prelude.{◌≡◌, IfOk};
ghost use Rattle.serde_json.specs.Data.{Data, Members, object, put};
ghost use Rattle.serde_json.specs.View.{members_view, view};
ghost use Rattle.solution_json.specs.Parts.{count_value};

use machine_data::OutOfMemory;
use serde_json::{Map, Value, put};
use std::alloc::Global;

/// These members and one more, with this value. Whether both were made is looked at here alone, since the checker goes through the
/// drops after each `?`.
pub(crate) fn with(
    alloc: Global,
    members: Result<Map<String, Value>, OutOfMemory>,
    key: &str,
    value: Result<Value, OutOfMemory>,
) -> Result<Map<String, Value>, OutOfMemory>
    ensures { (ms : Members) (d : Data) → IfOk members (λ m. members_view m.entries ≡ ms) → IfOk value (λ v. view v ≡ d) → IfOk result (λ m. members_view m.entries ≡ put key.now d ms) }
{
    let mut members = members?;
    put(&mut members, alloc, key, value?)?;
    Ok(members)
}

/// These members and one more, with this number.
pub(crate) fn with_count(
    alloc: Global,
    members: Result<Map<String, Value>, OutOfMemory>,
    key: &str,
    number: u64,
) -> Result<Map<String, Value>, OutOfMemory>
    ensures { (ms : Members) → IfOk members (λ m. members_view m.entries ≡ ms) → IfOk result (λ m. members_view m.entries ≡ put key.now (count_value number) ms) }
{
    with(alloc, members, key, Ok(Value::from(number)))
}

/// The object of these members.
pub(crate) fn object_of(
    members: Result<Map<String, Value>, OutOfMemory>,
) -> Result<Value, OutOfMemory>
    ensures { (ms : Members) → IfOk members (λ m. members_view m.entries ≡ ms) → IfOk result (λ v. view v ≡ object ms) }
{
    Ok(Value::Object(members?))
}
