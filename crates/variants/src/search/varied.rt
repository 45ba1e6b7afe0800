//! What a loop has on variants of its machine.

ghost use Rattle.std.specs.Prelude.{◌≡◌, ◌≤◌, ◌<◌, None, IfOk};
ghost use Rattle.machine_data.specs.Machines.{table_of};
ghost use Rattle.graph.specs.Dependences.{latency_in};
ghost use Rattle.graph.specs.Units.{first_without_table};
ghost use Rattle.machine_variants.specs.declared.variant.Variant.{Variant};
ghost use Rattle.machine_variants.specs.Variants.{IsVariantOf};
ghost use Rattle.variants.specs.Intervals.{IsFinding, IsIntervalOn, IsStanding};
ghost use Rattle.variants.specs.Findings.{IsOn};
ghost use Rattle.variants.specs.inner.Tries.{AreTries, found_of};
ghost use Rattle.machine_data.specs.declared.limits.TheConstants.{MAX_REGISTERS};

use crate::found::finding::{Finding, Standing};
use crate::search::intervals::{interval_of, interval_with};
use crate::search::least::least_number;
use graph::GraphFault;
use ims::Try;
use loop_schedules::Prepared;
use machine_data::{Machine, Opcode, OutOfMemory};
use machine_variants::{Variant, copied_loop, doubled, shortened};
use std::alloc::Global;

/// What a loop has on the machine as it is.
pub(crate) fn standing_of<'a>(
    alloc: Global,
    machine: &Machine,
    prepared: &'a Prepared,
    tries: &mut Vec<Try<'a>>,
) -> Result<Standing, OutOfMemory>
    requires on { IsOn machine.now prepared.now }
    requires are { AreTries prepared.now tries.old.items }
    ensures are { AreTries prepared.now tries.new.items }
    ensures exact { IfOk result (IsStanding machine.now prepared.now) }
{
    match interval_with(alloc, prepared, tries, prepared.registers())? {
        Some(ii) => {
            let above = (ii - prepared.mii()) as usize;
            let number = least_number(alloc, machine, prepared, tries.as_slice(), above)?;
            Ok(Standing::Met(ii, number))
        }
        None => Ok(Standing::Failed),
    }
}

/// The interval of the loop of a problem on another machine, which has a table for each of its opcodes, where it has one.
fn interval_on(
    alloc: Global,
    machine: &Machine,
    prepared: &Prepared,
) -> Result<Option<u64>, OutOfMemory>
    requires { first_without_table machine.now prepared.now.loop ≡ None }
    ensures { IfOk result (IsIntervalOn machine.now prepared.now.loop prepared.now.ratio prepared.now.ceiling) }
{
    let innermost = copied_loop(alloc, prepared.innermost())?;
    match Prepared::new(
        alloc,
        machine,
        innermost,
        prepared.ratio(),
        prepared.ceiling(),
    ) {
        Ok(prepared) => interval_of(alloc, &prepared),
        Err(GraphFault::NoTable(_)) => unreachable!(),
        Err(GraphFault::Memory) => Err(std::alloc::AllocError),
    }
}

/// What an interval on a variant within the limits is.
fn found(interval: Option<u64>) -> Finding
    ensures { result ≡ found_of interval }
{
    match interval {
        Some(ii) => Finding::Met(ii),
        None => Finding::Failed,
    }
}

/// What a loop has where a unit is there twice.
fn finding_doubled(
    alloc: Global,
    machine: &Machine,
    prepared: &Prepared,
    unit: u8,
) -> Result<Finding, OutOfMemory>
    requires on { IsOn machine.now prepared.now }
    ensures { IfOk result (IsFinding machine.now prepared.now (Variant.Doubled unit)) }
{
    match doubled(alloc, machine, unit)? {
        Some(other) => Ok(found(interval_on(alloc, &other, prepared)?)),
        None => Ok(Finding::Limit),
    }
}

/// What a loop has where the latency of an opcode is one cycle less.
fn finding_shortened(
    alloc: Global,
    machine: &Machine,
    prepared: &Prepared,
    opcode: Opcode,
) -> Result<Finding, OutOfMemory>
    requires above { 1 < latency_in (table_of machine.now opcode) }
    requires on { IsOn machine.now prepared.now }
    ensures { IfOk result (IsFinding machine.now prepared.now (Variant.Shortened opcode)) }
{
    let other = shortened(alloc, machine, opcode)?;
    Ok(found(interval_on(alloc, &other, prepared)?))
}

/// What a loop has with another number of registers.
fn finding_with<'a>(
    alloc: Global,
    machine: &Machine,
    prepared: &'a Prepared,
    tries: &mut Vec<Try<'a>>,
    registers: u16,
) -> Result<Finding, OutOfMemory>
    requires some { 1 ≤ registers }
    requires few { registers ≤ MAX_REGISTERS }
    requires on { IsOn machine.now prepared.now }
    requires are { AreTries prepared.now tries.old.items }
    ensures are { AreTries prepared.now tries.new.items }
    ensures exact { IfOk result (IsFinding machine.now prepared.now (Variant.Registers registers)) }
{
    Ok(found(interval_with(alloc, prepared, tries, registers)?))
}

/// What a loop has on a variant of its machine.
pub(crate) fn finding_of<'a>(
    alloc: Global,
    machine: &Machine,
    prepared: &'a Prepared,
    tries: &mut Vec<Try<'a>>,
    variant: Variant,
) -> Result<Finding, OutOfMemory>
    requires is { IsVariantOf machine.now variant }
    requires on { IsOn machine.now prepared.now }
    requires are { AreTries prepared.now tries.old.items }
    ensures are { AreTries prepared.now tries.new.items }
    ensures exact { IfOk result (IsFinding machine.now prepared.now variant) }
{
    match variant {
        Variant::Doubled(unit) => finding_doubled(alloc, machine, prepared, unit),
        Variant::Shortened(opcode) => finding_shortened(alloc, machine, prepared, opcode),
        Variant::Registers(registers) => finding_with(alloc, machine, prepared, tries, registers),
    }
}
