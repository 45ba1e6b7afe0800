//! What is told of loops, one after another.

ghost use Rattle.std.specs.Prelude.{◌≡◌, ◌++◌, not, count_by, length, IfOk, OnOk};
ghost use Rattle.std.specs.List.{All, flat_map, zip};
ghost use Rattle.machine_variants.specs.Variants.{IsVariantOf};
ghost use Rattle.variants.specs.declared.found.finding.LoopFindings.{LoopFindings};
ghost use Rattle.variants.specs.Findings.{AreFoundOf};
ghost use Rattle.variants.specs.Texts.{IsTextOf, is_met};
ghost use Rattle.variants.specs.inner.Told.{found_line, found_lines, part_text};

use crate::found::files::FileFindings;
use crate::found::finding::{Finding, LoopFindings, Standing};
use crate::told::lines::{push_line, push_loop};
use loop_schedules::Prepared;
use machine_data::{Machine, OutOfMemory};
use machine_variants::{Variant, variants_of};
use std::alloc::Global;
use writing::push_last;
use written::Printout;

/// How many loops have an interval on the machine as it is.
pub(crate) fn number_met(loops: &[LoopFindings]) -> u64
    ensures { result ≡ count_by (λ (found : LoopFindings). is_met found.standing) loops.now }
{
    loops.iter().filter(|found| found.standing.is_met()).count() as u64
}

/// How many loops have none.
pub(crate) fn number_failed(loops: &[LoopFindings]) -> u64
    ensures { result ≡ count_by (λ (found : LoopFindings). not (is_met found.standing)) loops.now }
{
    loops
        .iter()
        .filter(|found| !found.standing.is_met())
        .count() as u64
}

/// Appends the line of a variant, where that concerns the loop.
fn push_found(
    text: &mut Vec<u8>,
    machine: &Machine,
    standing: Standing,
    variant: Variant,
    found: Option<Finding>,
) -> Result<(), OutOfMemory>
    requires { IsVariantOf machine.now variant }
    ensures ok { OnOk result (text.new.items ≡ text.old.items ++ found_line machine.now standing variant found) }
{
    match found {
        Some(finding) => push_line(text, machine, standing, variant, finding),
        None => Ok(()),
    }
}

/// Appends the lines of the variants that concern a loop.
fn push_variants(
    text: &mut Vec<u8>,
    machine: &Machine,
    variants: &[Variant],
    standing: Standing,
    findings: &[Option<Finding>],
) -> Result<(), OutOfMemory>
    requires each { All (IsVariantOf machine.now) variants.now }
    requires long { length findings.now ≡ length variants.now }
    ensures ok { OnOk result (text.new.items ≡ text.old.items ++ found_lines machine.now standing variants.now findings.now) }
{
    for index in 0..variants.len() {
        let found = findings[index];
        match push_found(text, machine, standing, variants[index], found) {
            Ok(()) => {}
            Err(fault) => return Err(fault),
        }
    }
    Ok(())
}

/// Appends what is told of a loop.
fn push_part(
    text: &mut Vec<u8>,
    machine: &Machine,
    variants: &[Variant],
    prepared: &Prepared,
    found: &LoopFindings,
) -> Result<(), OutOfMemory>
    requires each { All (IsVariantOf machine.now) variants.now }
    requires long { length found.now.findings.items ≡ length variants.now }
    ensures ok { OnOk result (text.new.items ≡ text.old.items ++ part_text machine.now variants.now prepared.now found.now) }
{
    push_loop(text, prepared, found.standing)?;
    push_variants(
        text,
        machine,
        variants,
        found.standing,
        found.findings.as_slice(),
    )
}

/// Appends what is told of each loop.
fn push_parts(
    text: &mut Vec<u8>,
    machine: &Machine,
    variants: &[Variant],
    prepared: &[Prepared],
    loops: &[LoopFindings],
) -> Result<(), OutOfMemory>
    requires each { All (IsVariantOf machine.now) variants.now }
    requires same { length loops.now ≡ length prepared.now }
    requires long { All (λ (found : LoopFindings). length found.findings.items ≡ length variants.now) loops.now }
    ensures ok { OnOk result (text.new.items ≡ text.old.items ++ flat_map (λ both. part_text machine.now variants.now both.0 both.1) (zip prepared.now loops.now)) }
{
    for index in 0..prepared.len() {
        match push_part(text, machine, variants, &prepared[index], &loops[index]) {
            Ok(()) => {}
            Err(fault) => return Err(fault),
        }
    }
    Ok(())
}

/// What is found of the loops of a file, as text: for each loop, in order, the interval that it has, with the least number of registers
/// for it, and a line for each variant that concerns it, with the interval that it has there; and how many loops have an interval.
///
/// # Errors
/// Memory ran out.
pub fn findings_text(
    alloc: Global,
    machine: &Machine,
    found: &FileFindings,
) -> Result<Printout, OutOfMemory>
    requires { AreFoundOf machine.now found.now }
    ensures { IfOk result (IsTextOf machine.now found.now.prepared.items) }
{
    let variants = variants_of(alloc, machine)?;
    let prepared = found.prepared.as_slice();
    let loops = found.loops.as_slice();
    let mut text = Vec::new(alloc);
    push_parts(&mut text, machine, variants.as_slice(), prepared, loops)?;
    let failed = number_failed(loops);
    let number = prepared.len() as u64;
    push_last(&mut text, "loops ", number, number_met(loops), failed)?;
    Ok(Printout::new(text, failed == 0))
}
