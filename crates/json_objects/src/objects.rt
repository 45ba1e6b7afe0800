//! Objects of JSON that are built member by member. `json!` has two ways out for each of its members, with all that is made so far to be dropped
//! on each; here a member is handed on as it came, and what was not made shows at the end.

ghost use Rattle.std.specs.Prelude.{◌≡◌, IfOk};
ghost use Rattle.serde_json.specs.Data.{Data, Members, object, put};
ghost use Rattle.serde_json.specs.View.{members_view, view};

use machine_data::OutOfMemory;
use serde_json::{Map, Value, put};
use std::alloc::Global;

/// These members and one more, with this value. Whether both were made is looked at here alone, since the checker goes through the
/// drops after each `?`.
///
/// # Errors
/// Memory ran out, here or before.
pub fn with(
    alloc: Global,
    members: Result<Map<String, Value>, OutOfMemory>,
    key: &str,
    value: Result<Value, OutOfMemory>,
) -> Result<Map<String, Value>, OutOfMemory>
    ensures { (ms : Members) (d : Data) → IfOk members (λ m. members_view m.entries ≡ ms) → IfOk value (λ v. view v ≡ d) → IfOk result (λ m. members_view m.entries ≡ put key.now d ms) }
{
    let mut members = members?;
    put(&mut members, alloc, key, value?)?;
    Ok(members)
}

/// These members and one more, with a value that is there.
///
/// # Errors
/// Memory ran out, here or before.
pub fn with_value(
    alloc: Global,
    members: Result<Map<String, Value>, OutOfMemory>,
    key: &str,
    value: Value,
) -> Result<Map<String, Value>, OutOfMemory>
    ensures { (ms : Members) (d : Data) → IfOk members (λ m. members_view m.entries ≡ ms) → view value ≡ d → IfOk result (λ m. members_view m.entries ≡ put key.now d ms) }
{
    with(alloc, members, key, Ok(value))
}

/// The object of these members.
///
/// # Errors
/// Memory had run out.
pub fn object_of(members: Result<Map<String, Value>, OutOfMemory>) -> Result<Value, OutOfMemory>
    ensures { (ms : Members) → IfOk members (λ m. members_view m.entries ≡ ms) → IfOk result (λ v. view v ≡ object ms) }
{
    Ok(Value::Object(members?))
}
