//! The objects of loops.

ghost use Rattle.std.specs.Prelude.{◌≡◌, ◌≤◌, ◌+◌, ◌++◌, IfOk, OnOk, string_bytes};
ghost use Rattle.serde_json.specs.View.{members_view, view};
ghost use Rattle.loop_listings.specs.Listings.{IsRow};
ghost use Rattle.loop_listings.specs.Texts.{mii_in};
ghost use Rattle.listing_json.specs.Documents.{row_object, row_value};
ghost use Rattle.listing_json.specs.inner.Members.{row_members};
ghost use Rattle.machine_data.specs.declared.limits.TheConstants.{MAX_CEILING};

use crate::kernels::told_kernel;
use candidates::{Choice, Row};
use json_objects::{object_of, with, with_value};
use machine_data::OutOfMemory;
use serde_json::{Map, ToValue, Value};
use std::alloc::Global;
use writing::Text;

/// Appends the object of a loop, with its kernel or with why it has none, as JSON without blanks. `ceiling` is that of its listing.
///
/// # Errors
/// Memory ran out.
pub fn push_row(
    alloc: Global,
    text: &mut Vec<u8>,
    ceiling: u64,
    row: &Row,
) -> Result<(), OutOfMemory>
    requires ceiling { ceiling ≤ MAX_CEILING }
    requires row { IsRow row.now }
    ensures { OnOk result (text.new.items ≡ text.old.items ++ row_object ceiling row.now) }
{
    push_object(alloc, text, ceiling, row)
}

/// The same for a text of either kind.
pub(crate) fn push_object<T: Text>(
    alloc: Global,
    text: &mut T,
    ceiling: u64,
    row: &Row,
) -> Result<(), OutOfMemory>
    requires ceiling { ceiling ≤ MAX_CEILING }
    requires row { IsRow row.now }
    ensures { OnOk result (T.bytes text.new ≡ T.bytes text.old ++ row_object ceiling row.now) }
{
    let object = row_text(alloc, ceiling, row)?;
    text.push_piece(object.as_str())
}

/// The object of a loop, as JSON.
#[tactic(auto, using(crate::proofs::Whole::row_whole))]
fn row_text(alloc: Global, ceiling: u64, row: &Row) -> Result<String, OutOfMemory>
    requires ceiling { ceiling ≤ MAX_CEILING }
    requires row { IsRow row.now }
    ensures { IfOk result (λ text. string_bytes text ≡ row_object ceiling row.now) }
{
    let value = told_row(alloc, ceiling, row)?;
    value.to_string(alloc)
}

/// What is told of a loop, whether it has a kernel or not; `least` is its lower bound.
fn members_of(alloc: Global, row: &Row, least: u64) -> Result<Map<String, Value>, OutOfMemory>
    requires { least ≡ mii_in row.now }
    ensures { IfOk result (λ m. members_view m.entries ≡ row_members row.now) }
{
    let name = row.name.as_str().to_value(alloc);
    let members = with(alloc, Ok(Map::new(alloc)), "name", name);
    let members = with_value(alloc, members, "operations", Value::from(row.operations));
    let members = with_value(alloc, members, "resources", Value::from(row.resources));
    let members = with_value(alloc, members, "recurrences", Value::from(row.recurrences));
    with_value(alloc, members, "mii", Value::from(least))
}

/// The value of a loop.
fn told_row(alloc: Global, ceiling: u64, row: &Row) -> Result<Value, OutOfMemory>
    requires ceiling { ceiling ≤ MAX_CEILING }
    requires row { IsRow row.now }
    ensures { IfOk result (λ v. view v ≡ row_value ceiling row.now) }
{
    let least = row.resources.max(row.recurrences);
    let members = members_of(alloc, row, least);
    match &row.choice {
        Choice::Met(_, kernel) => {
            let kernel = told_kernel(alloc, kernel.parts());
            object_of(with(alloc, members, "kernel", kernel))
        }
        Choice::Failed(cause) => {
            let last = Value::from(least + ceiling);
            let members = with(alloc, members, "cause", cause.word().to_value(alloc));
            object_of(with_value(alloc, members, "failed_to", last))
        }
    }
}
