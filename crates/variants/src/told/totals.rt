//! What each variant of a machine brings the loops of a file in all.

ghost use Rattle.std.specs.Prelude.{◌≡◌, ◌≤◌, ◌<◌, ◌^◌, ◌++◌, if◌then◌else◌, ℕ, length, codes, IfOk, OnOk};
ghost use Rattle.std.specs.List.{All, list_any};
ghost use Rattle.writing.specs.Words.{told};
ghost use Rattle.machine_variants.specs.Variants.{IsVariantOf};
ghost use Rattle.variants.specs.Findings.{AreFoundOf};
ghost use Rattle.variants.specs.Totals.{IsTotalOf};
ghost use Rattle.variants.specs.inner.Columns.{changes_text, column_text, is_past, sum_at, sums_text, total_line, total_lines};
ghost use Rattle.machine_data.specs.declared.limits.TheConstants.{MAX_LOOPS};

use crate::found::files::FileFindings;
use crate::found::finding::LoopFindings;
use crate::told::columns::{
    concerns_some, failed_at, longer_at, own_failed, own_met, own_sum, passes_limit, shorter_at,
    sum_at,
};
use crate::told::lines::push_variant;
use machine_data::{Machine, OutOfMemory};
use machine_variants::{Variant, variants_of};
use std::alloc::Global;
use writing::{Text, push_last, push_told};
use written::Printout;

/// Appends the sum of intervals, and how many loops have none.
fn push_sums(text: &mut Vec<u8>, ii: u64, failed: u64) -> Result<(), OutOfMemory>
    ensures ok { OnOk result (text.new.items ≡ text.old.items ++ sums_text ii failed) }
{
    push_told(text, " ii ", ii)?;
    push_told(text, " failed ", failed)
}

/// Appends how many loops have another interval.
fn push_changes(text: &mut Vec<u8>, shorter: u64, longer: u64) -> Result<(), OutOfMemory>
    ensures ok { OnOk result (text.new.items ≡ text.old.items ++ changes_text shorter longer) }
{
    push_told(text, " shorter ", shorter)?;
    push_told(text, " longer ", longer)
}

/// Appends what the loops have in all on the variant of a number.
fn push_column(text: &mut Vec<u8>, loops: &[LoopFindings], number: usize) -> Result<(), OutOfMemory>
    requires { sum_at number loops.now < 2 ^ 64 }
    ensures ok { OnOk result (text.new.items ≡ text.old.items ++ column_text number loops.now) }
{
    push_sums(text, sum_at(loops, number), failed_at(loops, number))?;
    push_changes(text, shorter_at(loops, number), longer_at(loops, number))?;
    text.push_piece("\n")
}

/// Appends what follows the variant of a number, which concerns some loop.
fn push_result(text: &mut Vec<u8>, loops: &[LoopFindings], number: usize) -> Result<(), OutOfMemory>
    requires { sum_at number loops.now < 2 ^ 64 }
    ensures ok { OnOk result (text.new.items ≡ text.old.items ++ (if list_any (is_past number) loops.now then codes " -\n" else column_text number loops.now)) }
{
    if passes_limit(loops, number) {
        return text.push_piece(" -\n");
    }
    push_column(text, loops, number)
}

/// Appends the line of the variant of a number, where that concerns some loop.
fn push_total(
    text: &mut Vec<u8>,
    machine: &Machine,
    loops: &[LoopFindings],
    variant: Variant,
    number: usize,
) -> Result<(), OutOfMemory>
    requires is { IsVariantOf machine.now variant }
    requires few { sum_at number loops.now < 2 ^ 64 }
    ensures ok { OnOk result (text.new.items ≡ text.old.items ++ total_line machine.now loops.now variant number) }
{
    if !concerns_some(loops, number) {
        return Ok(());
    }
    push_variant(text, machine, variant)?;
    push_result(text, loops, number)
}

/// Appends the lines of the variants that concern some loop.
fn push_totals(
    text: &mut Vec<u8>,
    machine: &Machine,
    loops: &[LoopFindings],
    variants: &[Variant],
) -> Result<(), OutOfMemory>
    requires each { All (IsVariantOf machine.now) variants.now }
    requires few { (number : ℕ) → sum_at number loops.now < 2 ^ 64 }
    ensures ok { OnOk result (text.new.items ≡ text.old.items ++ total_lines machine.now loops.now variants.now) }
{
    for number in 0..variants.len() {
        match push_total(text, machine, loops, variants[number], number) {
            Ok(()) => {}
            Err(fault) => return Err(fault),
        }
    }
    Ok(())
}

/// Appends the line of the machine as it is.
fn push_own(text: &mut Vec<u8>, number: u64, ii: u64, failed: u64) -> Result<(), OutOfMemory>
    ensures ok { OnOk result (text.new.items ≡ text.old.items ++ ((told (codes "total loops ") number ++ sums_text ii failed) ++ codes "\n")) }
{
    push_told(text, "total loops ", number)?;
    push_sums(text, ii, failed)?;
    text.push_piece("\n")
}

/// What is found of the loops of a file in all, as text: the sum of the intervals of the loops that have one on the machine as it is, and
/// how many have none; and for each variant that concerns some loop, in the order of the machine's variants, the same for that variant,
/// with how many loops have a shorter interval there and how many a longer one. A loop that a variant does not concern has the interval
/// there that it has on the machine as it is. That a loop has none counts as longer than each interval.
///
/// # Errors
/// Memory ran out.
pub fn findings_total(
    alloc: Global,
    machine: &Machine,
    found: &FileFindings,
) -> Result<Printout, OutOfMemory>
    requires few { length found.now.prepared.items ≤ MAX_LOOPS }
    requires found { AreFoundOf machine.now found.now }
    ensures { IfOk result (IsTotalOf machine.now found.now.prepared.items) }
{
    let variants = variants_of(alloc, machine)?;
    let prepared = found.prepared.as_slice();
    let loops = found.loops.as_slice();
    let number = prepared.len() as u64;
    let mut text = Vec::new(alloc);
    let failed = own_failed(loops);
    push_own(&mut text, number, own_sum(loops), failed)?;
    push_totals(&mut text, machine, loops, variants.as_slice())?;
    push_last(&mut text, "loops ", number, own_met(loops), failed)?;
    Ok(Printout::new(text, failed == 0))
}
