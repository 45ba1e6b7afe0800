//! What is found of a loop.

ghost use Rattle.std.specs.Prelude.{◌≡◌, ◌∷◌, [], ◌++◌, IfOk, Option, OnOk};
ghost use Rattle.std.specs.List.{All, AllZip};
ghost use Rattle.machine_variants.specs.Variants.{IsVariantOf};
ghost use Rattle.variants.specs.declared.found.finding.Finding.{Finding};
ghost use Rattle.variants.specs.Findings.{AreFindings, IsFoundOn, IsOn};
ghost use Rattle.variants.specs.inner.Tries.{AreTries};

use crate::found::finding::{Finding, LoopFindings};
use crate::search::varied::{finding_of, standing_of};
use ims::Try;
use loop_schedules::Prepared;
use machine_data::{Machine, OutOfMemory};
use machine_variants::{Variant, concerns, variants_of};
use std::alloc::Global;

/// What a loop has on a variant, where that concerns it.
fn finding_where<'a>(
    alloc: Global,
    machine: &Machine,
    prepared: &'a Prepared,
    tries: &mut Vec<Try<'a>>,
    variant: Variant,
) -> Result<Option<Finding>, OutOfMemory>
    requires is { IsVariantOf machine.now variant }
    requires on { IsOn machine.now prepared.now }
    requires are { AreTries prepared.now tries.old.items }
    ensures are { AreTries prepared.now tries.new.items }
    ensures exact { IfOk result (IsFoundOn machine.now prepared.now variant) }
{
    if !concerns(machine, prepared.innermost(), variant) {
        return Ok(None);
    }
    Ok(Some(finding_of(alloc, machine, prepared, tries, variant)?))
}

/// Adds what a loop has on a variant.
fn add_finding<'a>(
    alloc: Global,
    findings: &mut Vec<Option<Finding>>,
    machine: &Machine,
    prepared: &'a Prepared,
    tries: &mut Vec<Try<'a>>,
    variant: Variant,
) -> Result<(), OutOfMemory>
    requires is { IsVariantOf machine.now variant }
    requires on { IsOn machine.now prepared.now }
    requires are { AreTries prepared.now tries.old.items }
    ensures are { AreTries prepared.now tries.new.items }
    ensures ok { OnOk result ((found : Option Finding) × IsFoundOn machine.now prepared.now variant found × (findings.new.items ≡ findings.old.items ++ found ∷ [])) }
{
    let found = finding_where(alloc, machine, prepared, tries, variant)?;
    Ok(findings.push(found)?)
}

/// What a loop has on each of these variants.
fn findings_on<'a>(
    alloc: Global,
    machine: &Machine,
    prepared: &'a Prepared,
    tries: &mut Vec<Try<'a>>,
    variants: &[Variant],
) -> Result<Vec<Option<Finding>>, OutOfMemory>
    requires each { All (IsVariantOf machine.now) variants.now }
    requires on { IsOn machine.now prepared.now }
    requires are { AreTries prepared.now tries.old.items }
    ensures exact { IfOk result (λ findings. AllZip (IsFoundOn machine.now prepared.now) variants.now findings.items) }
{
    let mut findings = Vec::with_capacity(alloc, variants.len())?;
    for variant in variants {
        match add_finding(alloc, &mut findings, machine, prepared, tries, *variant) {
            Ok(()) => {}
            Err(fault) => return Err(fault),
        }
    }
    Ok(findings)
}

/// What is found of a loop on a machine, for which it is prepared: its standing, and what it has on each variant of the machine that
/// concerns it.
///
/// # Errors
/// Memory ran out.
pub fn findings_of(
    alloc: Global,
    machine: &Machine,
    prepared: &Prepared,
) -> Result<LoopFindings, OutOfMemory>
    requires { IsOn machine.now prepared.now }
    ensures { IfOk result (AreFindings machine.now prepared.now) }
{
    let variants = variants_of(alloc, machine)?;
    let mut tries = Vec::new(alloc);
    let standing = standing_of(alloc, machine, prepared, &mut tries)?;
    let findings = findings_on(alloc, machine, prepared, &mut tries, variants.as_slice())?;
    Ok(LoopFindings { standing, findings })
}
