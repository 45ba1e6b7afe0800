//! Loops and variants, with what is found of them, as JSON values.

ghost use Rattle.std.specs.Prelude.{◌≡◌, ◌<◌, ◌++◌, codes, length, map, IfOk, OnOk};
ghost use Rattle.std.specs.List.{All, slice_index_or};
ghost use Rattle.serde_json.specs.Data.{array, string};
ghost use Rattle.serde_json.specs.View.{items_of, view};
ghost use Rattle.machine_variants.specs.Variants.{IsVariantOf};
ghost use Rattle.variants.specs.Documents.{change_value, interval_value, is_limit, kind_word, latency_value, least_value, name_value, number_value, own_value, variant_object};
ghost use Rattle.variants.specs.inner.Told.{found_object, found_objects};

use crate::found::finding::{Finding, Standing};
use crate::told::lines::change_word;
use machine_data::{Machine, OutOfMemory};
use machine_variants::{Variant, latency_of};
use serde_json::{ToValue, Value, json};
use std::alloc::Global;

/// The word of what is changed.
fn kind_word(variant: Variant) -> &'static str
    ensures { result.now ≡ kind_word variant }
{
    match variant {
        Variant::Doubled(_) => "unit",
        Variant::Shortened(_) => "latency",
        Variant::Registers(_) => "registers",
    }
}

/// The name of a unit.
fn told_unit(alloc: Global, machine: &Machine, unit: u8) -> Result<Value, OutOfMemory>
    requires { unit < length machine.now.units }
    ensures { IfOk result (λ v. view v ≡ string (slice_index_or machine.now.units unit (codes ""))) }
{
    let units = machine.units();
    units[usize::from(unit)].as_str().to_value(alloc)
}

/// The unit that is there twice, or the opcode of the latency.
fn told_name(alloc: Global, machine: &Machine, variant: Variant) -> Result<Value, OutOfMemory>
    requires { IsVariantOf machine.now variant }
    ensures { IfOk result (λ v. view v ≡ name_value machine.now variant) }
{
    match variant {
        Variant::Doubled(unit) => told_unit(alloc, machine, unit),
        Variant::Shortened(opcode) => opcode.word().to_value(alloc),
        Variant::Registers(_) => Ok(Value::Null),
    }
}

/// The latency on a variant, where it is that which is changed.
fn told_latency(machine: &Machine, variant: Variant) -> Value
    requires { IsVariantOf machine.now variant }
    ensures { view result ≡ latency_value machine.now variant }
{
    match variant {
        Variant::Shortened(opcode) => Value::from(latency_of(machine, opcode) - 1),
        Variant::Doubled(_) => Value::Null,
        Variant::Registers(_) => Value::Null,
    }
}

/// The number of registers on a variant, where it is that which is changed.
fn told_number(variant: Variant) -> Value
    ensures { view result ≡ number_value variant }
{
    match variant {
        Variant::Registers(number) => Value::from(number),
        Variant::Doubled(_) => Value::Null,
        Variant::Shortened(_) => Value::Null,
    }
}

/// The interval on a variant, where there is one.
fn told_interval(finding: Finding) -> Value
    ensures { view result ≡ interval_value finding }
{
    match finding {
        Finding::Met(ii) => Value::from(ii),
        Finding::Limit => Value::Null,
        Finding::Failed => Value::Null,
    }
}

/// How that compares with the one on the machine as it is.
fn told_change(alloc: Global, standing: Standing, finding: Finding) -> Result<Value, OutOfMemory>
    ensures { IfOk result (λ v. view v ≡ change_value standing finding) }
{
    match finding {
        Finding::Met(ii) => change_word(standing, ii).to_value(alloc),
        Finding::Limit => Ok(Value::Null),
        Finding::Failed => Ok(Value::Null),
    }
}

/// Whether a variant passes a limit.
fn is_limit(finding: Finding) -> bool
    ensures { result ≡ is_limit finding }
{
    matches!(finding, Finding::Limit)
}

/// A variant, and what a loop has there.
#[tactic(auto, unfolding(crate::specs::Documents::variant_object))]
fn told_variant(
    alloc: Global,
    machine: &Machine,
    standing: Standing,
    variant: Variant,
    finding: Finding,
) -> Result<Value, OutOfMemory>
    requires { IsVariantOf machine.now variant }
    ensures { IfOk result (λ v. view v ≡ variant_object machine.now standing variant finding) }
{
    json!(in alloc; {
        "variant": kind_word(variant),
        "name": told_name(alloc, machine, variant)?,
        "latency": told_latency(machine, variant),
        "registers": told_number(variant),
        "ii": told_interval(finding),
        "change": told_change(alloc, standing, finding)?,
        "limit": is_limit(finding)
    })
}

/// Adds a variant, where it concerns the loop.
fn push_variant(
    alloc: Global,
    values: &mut Vec<Value>,
    machine: &Machine,
    standing: Standing,
    variant: Variant,
    found: Option<Finding>,
) -> Result<(), OutOfMemory>
    requires { IsVariantOf machine.now variant }
    ensures { OnOk result (map view values.new.items ≡ map view values.old.items ++ found_object machine.now standing variant found) }
{
    match found {
        Some(finding) => {
            let value = told_variant(alloc, machine, standing, variant, finding)?;
            Ok(values.push(value)?)
        }
        None => Ok(()),
    }
}

/// The variants that concern a loop.
pub(crate) fn told_variants(
    alloc: Global,
    machine: &Machine,
    variants: &[Variant],
    standing: Standing,
    findings: &[Option<Finding>],
) -> Result<Value, OutOfMemory>
    requires each { All (IsVariantOf machine.now) variants.now }
    requires long { length findings.now ≡ length variants.now }
    ensures { IfOk result (λ v. view v ≡ array (items_of (found_objects machine.now standing variants.now findings.now))) }
{
    let mut values = Vec::new(alloc);
    for index in 0..variants.len() {
        let found = findings[index];
        match push_variant(
            alloc,
            &mut values,
            machine,
            standing,
            variants[index],
            found,
        ) {
            Ok(()) => {}
            Err(fault) => return Err(fault),
        }
    }
    Ok(Value::Array(values))
}

/// The interval of a loop on the machine as it is, where it has one.
pub(crate) fn told_own(standing: Standing) -> Value
    ensures { view result ≡ own_value standing }
{
    match standing {
        Standing::Met(ii, _) => Value::from(ii),
        Standing::Failed => Value::Null,
    }
}

/// The least number of registers for it.
pub(crate) fn told_least(standing: Standing) -> Value
    ensures { view result ≡ least_value standing }
{
    match standing {
        Standing::Met(_, number) => Value::from(number),
        Standing::Failed => Value::Null,
    }
}
