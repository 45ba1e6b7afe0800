//! Judging values of the tree of a machine text.

ghost use Rattle.std.specs.Prelude.{◌≡◌, ◌++◌, ◌<◌, ◌^◌, [], ◌∷◌, length, option_map, IfOk, OnOk};
ghost use Rattle.std.specs.List.{list_any};
ghost use Rattle.machine_lint.specs.Spots.{limit_of};
ghost use Rattle.machine_lint.specs.Tree.{missed, told, told_unless, value_told};
ghost use Rattle.machine_lint.specs.Values.{counts, is_unit_of, is_wanted, is_within, measures, row_words_in, same_text, same_words};
ghost use Rattle.machine_lint.specs.inner.Ats.{fault_of, lint_on, name_of, spot_at};
ghost use Rattle.machine.specs.MachineText.{is_unit_name, text_of};
ghost use Rattle.toml.specs.View.{view};
ghost use Rattle.toml.specs.Data.{string};

use crate::index::Indexed;
use crate::place::{MachineLint, NOWHERE, Place, place_of};
use crate::spots::{At, Found, key, shown};
use machine::limits::{MAX_ALTERNATIVES, MAX_LATENCY, MAX_REGISTERS, MAX_ROWS, MAX_UNITS};
use machine::{Key, MachineFault, OutOfMemory, is_unit_name, row_words, small_offset};
use std::alloc::Global;
use toml::Value;

/// Whether a value is an array of so many elements at most, and of one at least.
fn counts(value: &Value, high: usize) -> bool
    ensures { result ≡ counts high (view value.now) }
{
    match value.as_array() {
        Some(elements) => 1 <= elements.len() && elements.len() <= high,
        None => false,
    }
}

/// Whether a value is an integer so large at most, and 1 at least.
fn measures(value: &Value, high: u16) -> bool
    ensures { result ≡ measures high (view value.now) }
{
    match value.as_integer() {
        Some(number) => 1 <= number && number <= i64::from(high),
        None => false,
    }
}

/// The text that a value is, or none.
pub(crate) fn text_of(value: &Value) -> &str
    ensures { result.now ≡ text_of (view value.entry.now) }
{
    match value.as_str() {
        Some(text) => text,
        None => "",
    }
}

/// Whether a value has the form of a unit's name.
fn is_name(value: &Value) -> bool
    ensures { result ≡ is_unit_name (text_of (view value.now)) }
{
    match value.as_str() {
        Some(text) => is_unit_name(text),
        None => false,
    }
}

/// The unit's name and the offset of a row, where the offset is small enough.
fn near_row(value: &Value) -> Option<(&str, u8)>
    ensures { option_map (λ p. (p.0.now, p.1)) result ≡ row_words_in (view value.now) }
{
    let (unit, digits) = row_words(value)?;
    let offset = small_offset(digits)?;
    Some((unit, offset))
}

/// Whether a value has the type that it needs there.
fn is_wanted(at: At<'_>, value: &Value) -> bool
    ensures { result ≡ is_wanted (spot_at at.entry) (view value.now) }
{
    match at {
        At::TopKey(_) | At::TableKey(_, _) => true,
        At::Units | At::Alternatives(_) | At::Alternative(_, _) => matches!(value, Value::Array(_)),
        At::Unit(_) => matches!(value, Value::String(_)),
        At::Registers | At::Latency(_) => matches!(value, Value::Integer(_)),
        At::Ops | At::Table(_) => matches!(value, Value::Table(_)),
        At::Row(_, _, _) => row_words(value).is_some(),
    }
}

/// Whether a value of that type is within its limits.
fn is_within(at: At<'_>, value: &Value) -> bool
    ensures { result ≡ is_within (spot_at at.entry) (view value.now) }
{
    match at {
        At::Units => counts(value, MAX_UNITS),
        At::Unit(_) => is_name(value),
        At::Registers => measures(value, MAX_REGISTERS),
        At::Latency(_) => measures(value, MAX_LATENCY as u16),
        At::Alternatives(_) => counts(value, MAX_ALTERNATIVES),
        At::Alternative(_, _) => counts(value, MAX_ROWS),
        At::Row(_, _, _) => near_row(value).is_some(),
        At::TopKey(_) | At::TableKey(_, _) | At::Ops | At::Table(_) => true,
    }
}

/// The limit that a value there has to keep.
fn limit_of(at: At<'_>) -> &'static str
    ensures { result.now ≡ limit_of (spot_at at.entry) }
{
    match at {
        At::Units => "units",
        At::Unit(_) => "unit name",
        At::Registers => "registers",
        At::Latency(_) => "latency",
        At::Alternatives(_) => "alternatives",
        At::Alternative(_, _) => "rows",
        At::Row(_, _, _) => "offset",
        At::TopKey(_) | At::TableKey(_, _) | At::Ops | At::Table(_) => "text",
    }
}

/// What is wrong with a value, with the name that is told of it where that is not its key.
#[derive(Clone, Copy)]
pub(crate) enum Wrong<'a> {
    /// It has a wrong type.
    Type,
    /// It is outside its limits.
    Limit,
    /// Its key means nothing.
    Key,
    /// An earlier row is the same.
    Row,
    /// An earlier unit has this name too.
    Repeated(&'a str),
    /// No unit has this name.
    Unit(&'a str),
    /// No opcode is this word.
    Opcode(&'a str),
}

/// The key, or the name, that is told of what is wrong.
fn name_of(alloc: Global, at: At<'_>, wrong: Wrong<'_>) -> Result<Key, OutOfMemory>
    ensures { IfOk result (λ name. name ≡ name_of (spot_at at.entry) wrong.entry) }
{
    match wrong {
        Wrong::Type | Wrong::Key | Wrong::Row => at.to_key(alloc),
        Wrong::Limit => key(alloc, limit_of(at)),
        Wrong::Repeated(name) | Wrong::Unit(name) | Wrong::Opcode(name) => key(alloc, name),
    }
}

/// The fault of what is wrong, with the key or the name that is told of it.
fn fault_of(wrong: Wrong<'_>, name: Key) -> MachineFault
    ensures { result ≡ fault_of wrong.entry name }
{
    match wrong {
        Wrong::Type => MachineFault::WrongType(name),
        Wrong::Limit => MachineFault::Limit(name),
        Wrong::Key => MachineFault::UnknownKey(name),
        Wrong::Row => MachineFault::RepeatedRow(name),
        Wrong::Repeated(_) => MachineFault::RepeatedUnit(name),
        Wrong::Unit(_) => MachineFault::UnknownUnit(name),
        Wrong::Opcode(_) => MachineFault::UnknownOpcode(name),
    }
}

/// Puts a fault after the others, at a place.
fn put(
    lints: &mut Vec<MachineLint>,
    place: Place,
    at: At<'_>,
    found: Found,
    fault: MachineFault,
) -> Result<(), OutOfMemory>
    ensures { OnOk result (lints.new.items ≡ lints.old.items ++ lint_on place (spot_at at.entry) found fault ∷ []) }
{
    let spot = at.to_spot(*lints.allocator())?;
    lints.push(MachineLint {
        line: place.line,
        column: place.column,
        spot,
        found,
        fault,
    })?;
    Ok(())
}

/// Tells what is wrong with a value of a text.
fn tell(
    lints: &mut Vec<MachineLint>,
    text: &Indexed<'_>,
    at: At<'_>,
    value: &Value,
    wrong: Wrong<'_>,
) -> Result<(), OutOfMemory>
    requires short { length text.now < 2 ^ 32 }
    ensures { OnOk result (lints.new.items ≡ lints.old.items ++ told text.now (spot_at at.entry) (view value.now) (fault_of wrong.entry (name_of (spot_at at.entry) wrong.entry)) ∷ []) }
{
    let alloc = *lints.allocator();
    let found = shown(alloc, value)?;
    let fault = fault_of(wrong, name_of(alloc, at, wrong)?);
    put(lints, place_of(text, at), at, found, fault)
}

/// Tells what is wrong with a value of a text, unless a test holds.
pub(crate) fn tell_unless(
    holds: bool,
    lints: &mut Vec<MachineLint>,
    text: &Indexed<'_>,
    at: At<'_>,
    value: &Value,
    wrong: Wrong<'_>,
) -> Result<(), OutOfMemory>
    requires short { length text.now < 2 ^ 32 }
    ensures { OnOk result (lints.new.items ≡ lints.old.items ++ told_unless holds (told text.now (spot_at at.entry) (view value.now) (fault_of wrong.entry (name_of (spot_at at.entry) wrong.entry)))) }
{
    if holds {
        return Ok(());
    }
    tell(lints, text, at, value, wrong)
}

/// Tells that a key is missing.
fn miss(lints: &mut Vec<MachineLint>, at: At<'_>) -> Result<(), OutOfMemory>
    ensures { OnOk result (lints.new.items ≡ lints.old.items ++ missed (spot_at at.entry) ∷ []) }
{
    let fault = MachineFault::MissingKey(at.to_key(*lints.allocator())?);
    put(lints, NOWHERE, at, Found::Nothing, fault)
}

/// Tells whether a value is missing, or of a wrong type, or outside its limits.
#[tactic(auto, unfolding(crate::specs::Tree::value_told))]
pub(crate) fn judge_value(
    lints: &mut Vec<MachineLint>,
    text: &Indexed<'_>,
    at: At<'_>,
    value: Option<&Value>,
) -> Result<(), OutOfMemory>
    requires short { length text.now < 2 ^ 32 }
    ensures { OnOk result (lints.new.items ≡ lints.old.items ++ value_told text.now (spot_at at.entry) (option_map (λ v. view v.now) value.entry)) }
{
    let Some(value) = value else {
        return miss(lints, at);
    };
    if !is_wanted(at, value) {
        return tell(lints, text, at, value, Wrong::Type);
    }
    tell_unless(is_within(at, value), lints, text, at, value, Wrong::Limit)
}

/// Whether two values are the same text.
pub(crate) fn same_text(value: &Value, other: &Value) -> bool
    ensures { result ≡ same_text (view value.now) (view other.now) }
{
    match (value.as_str(), other.as_str()) {
        (Some(text), Some(same)) => text == same,
        _ => false,
    }
}

/// Whether two rows have the same unit and the same offset.
pub(crate) fn same_row(value: &Value, other: &Value) -> bool
    ensures { result ≡ same_words (row_words_in (view value.now)) (row_words_in (view other.now)) }
{
    match (near_row(value), near_row(other)) {
        (Some((unit, offset)), Some((same, at))) => unit == same && offset == at,
        _ => false,
    }
}

/// Whether a value is this text.
fn is_text(value: &Value, text: &str) -> bool
    ensures { result ≡ same_text (string text.now) (view value.now) }
{
    match value.as_str() {
        Some(own) => text == own,
        None => false,
    }
}

/// Whether the units have one of this name. Where no units are given none is missed.
pub(crate) fn is_unit_of(units: Option<&Value>, name: &str) -> bool
    ensures { result ≡ is_unit_of (option_map (λ v. view v.now) units.entry) name.now }
{
    let Some(units) = units else {
        return true;
    };
    match units.as_array() {
        Some(units) => is_among(units, name),
        None => true,
    }
}

/// Whether one of these values is this text.
fn is_among(values: &[Value], name: &str) -> bool
    ensures { result ≡ list_any (λ v. same_text (string name.now) (view v)) values.now }
{
    for value in values {
        if is_text(value, name) {
            return true;
        }
    }
    false
}
