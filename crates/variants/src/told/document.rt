//! The JSON document of what is found of a file.

ghost use Rattle.std.specs.Prelude.{◌≡◌, [], ◌∷◌, ◌++◌, false, length, map, codes, IfOk, OnOk};
ghost use Rattle.std.specs.List.{All, zip};
ghost use Rattle.serde_json.specs.Data.{array};
ghost use Rattle.serde_json.specs.View.{items_of, view};
ghost use Rattle.serde_json.specs.Written.{compact_text, has_float};
ghost use Rattle.machine_variants.specs.Variants.{IsVariantOf};
ghost use Rattle.variants.specs.declared.found.finding.LoopFindings.{LoopFindings};
ghost use Rattle.variants.specs.Documents.{IsDocumentOf};
ghost use Rattle.variants.specs.Findings.{AreFoundOf};
ghost use Rattle.variants.specs.inner.Told.{part_object, parts_object};

use crate::found::files::FileFindings;
use crate::found::finding::LoopFindings;
use crate::told::parts::{number_failed, number_met};
use crate::told::values::{told_least, told_own, told_variants};
use loop_schedules::Prepared;
use machine_data::{Machine, OutOfMemory};
use machine_variants::{Variant, variants_of};
use serde_json::{Value, json};
use std::alloc::Global;
use written::Printout;

/// A loop, with what is found of it.
#[tactic(auto, unfolding(crate::specs::inner::Told::part_object))]
fn told_loop(
    alloc: Global,
    machine: &Machine,
    variants: &[Variant],
    prepared: &Prepared,
    found: &LoopFindings,
) -> Result<Value, OutOfMemory>
    requires each { All (IsVariantOf machine.now) variants.now }
    requires long { length found.now.findings.items ≡ length variants.now }
    ensures { IfOk result (λ v. view v ≡ part_object machine.now variants.now prepared.now found.now) }
{
    let innermost = prepared.innermost();
    let standing = found.standing;
    let findings = found.findings.as_slice();
    json!(in alloc; {
        "name": innermost.name().as_str(),
        "operations": innermost.statements().len(),
        "mii": prepared.mii(),
        "ii": told_own(standing),
        "registers": told_least(standing),
        "variants": told_variants(alloc, machine, variants, standing, findings)?
    })
}

/// Adds a loop.
fn push_loop(
    alloc: Global,
    values: &mut Vec<Value>,
    machine: &Machine,
    variants: &[Variant],
    prepared: &Prepared,
    found: &LoopFindings,
) -> Result<(), OutOfMemory>
    requires each { All (IsVariantOf machine.now) variants.now }
    requires long { length found.now.findings.items ≡ length variants.now }
    ensures { OnOk result (map view values.new.items ≡ map view values.old.items ++ part_object machine.now variants.now prepared.now found.now ∷ []) }
{
    let value = told_loop(alloc, machine, variants, prepared, found)?;
    Ok(values.push(value)?)
}

/// All loops, in order.
fn told_loops(
    alloc: Global,
    machine: &Machine,
    variants: &[Variant],
    prepared: &[Prepared],
    loops: &[LoopFindings],
) -> Result<Value, OutOfMemory>
    requires each { All (IsVariantOf machine.now) variants.now }
    requires same { length loops.now ≡ length prepared.now }
    requires long { All (λ (found : LoopFindings). length found.findings.items ≡ length variants.now) loops.now }
    ensures { IfOk result (λ v. view v ≡ array (items_of (map (λ both. part_object machine.now variants.now both.0 both.1) (zip prepared.now loops.now)))) }
{
    let mut values = Vec::with_capacity(alloc, prepared.len())?;
    for index in 0..prepared.len() {
        match push_loop(
            alloc,
            &mut values,
            machine,
            variants,
            &prepared[index],
            &loops[index],
        ) {
            Ok(()) => {}
            Err(fault) => return Err(fault),
        }
    }
    Ok(Value::Array(values))
}

/// The document.
#[tactic(auto, unfolding(crate::specs::inner::Told::parts_object))]
fn told_file(
    alloc: Global,
    machine: &Machine,
    variants: &[Variant],
    prepared: &[Prepared],
    loops: &[LoopFindings],
) -> Result<Value, OutOfMemory>
    requires each { All (IsVariantOf machine.now) variants.now }
    requires same { length loops.now ≡ length prepared.now }
    requires long { All (λ (found : LoopFindings). length found.findings.items ≡ length variants.now) loops.now }
    ensures { IfOk result (λ v. view v ≡ parts_object machine.now variants.now prepared.now loops.now) }
{
    json!(in alloc; {
        "version": 1u64,
        "loops": told_loops(alloc, machine, variants, prepared, loops)?,
        "met": number_met(loops),
        "failed": number_failed(loops)
    })
}

/// A value as JSON without blanks, on a line.
fn line_of(alloc: Global, value: &Value) -> Result<Vec<u8>, OutOfMemory>
    ensures { IfOk result (λ text. has_float (view value.now) ≡ false → text.items ≡ compact_text (view value.now) ++ codes "\n") }
{
    let mut text = value.to_vec(alloc)?;
    text.extend_from_slice(b"\n")?;
    Ok(text)
}

/// What is found of the loops of a file, as a JSON document on one line: an object with its loops, each with its interval and with the
/// variants that concern it, and how many have an interval. No blank stands between its parts, and keys stand in the order of their
/// bytes.
///
/// # Errors
/// Memory ran out.
pub fn findings_document(
    alloc: Global,
    machine: &Machine,
    found: &FileFindings,
) -> Result<Printout, OutOfMemory>
    requires { AreFoundOf machine.now found.now }
    ensures { IfOk result (IsDocumentOf machine.now found.now.prepared.items) }
{
    let variants = variants_of(alloc, machine)?;
    let prepared = found.prepared.as_slice();
    let loops = found.loops.as_slice();
    let value = told_file(alloc, machine, variants.as_slice(), prepared, loops)?;
    let text = line_of(alloc, &value)?;
    Ok(Printout::new(text, number_failed(loops) == 0))
}
