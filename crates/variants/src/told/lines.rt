//! The lines of loops and of variants.

ghost use Rattle.std.specs.Prelude.{◌≡◌, ◌≤◌, ◌++◌, codes, OnOk};
ghost use Rattle.machine_variants.specs.Variants.{IsVariantOf};
ghost use Rattle.variants.specs.declared.found.finding.Standing.{Standing};
ghost use Rattle.variants.specs.Texts.{change_word, finding_text, loop_line, standing_text, variant_line, variant_text};

use crate::found::finding::{Finding, Standing};
use loop_schedules::Prepared;
use machine_data::{Machine, OutOfMemory};
use machine_variants::{Variant, latency_of};
use writing::{Text, push_both, push_told};

/// Appends an interval, and a number of registers.
fn push_met(text: &mut Vec<u8>, ii: u64, number: u16) -> Result<(), OutOfMemory>
    ensures ok { OnOk result (text.new.items ≡ text.old.items ++ standing_text (Standing.Met ii number)) }
{
    push_told(text, " ii ", ii)?;
    push_told(text, " registers ", u64::from(number))?;
    text.push_piece("\n")
}

/// Appends what a loop has on the machine as it is.
fn push_standing(text: &mut Vec<u8>, standing: Standing) -> Result<(), OutOfMemory>
    ensures ok { OnOk result (text.new.items ≡ text.old.items ++ standing_text standing) }
{
    match standing {
        Standing::Failed => text.push_piece(" failed\n"),
        Standing::Met(ii, number) => push_met(text, ii, number),
    }
}

/// Appends the line of a loop.
pub(crate) fn push_loop(
    text: &mut Vec<u8>,
    prepared: &Prepared,
    standing: Standing,
) -> Result<(), OutOfMemory>
    ensures ok { OnOk result (text.new.items ≡ text.old.items ++ loop_line prepared.now standing) }
{
    let innermost = prepared.innermost();
    push_both(text, "loop ", innermost.name().as_str())?;
    push_told(text, " ops ", innermost.statements().len() as u64)?;
    push_told(text, " mii ", prepared.mii())?;
    push_standing(text, standing)
}

/// Appends what is changed.
pub(crate) fn push_variant(
    text: &mut Vec<u8>,
    machine: &Machine,
    variant: Variant,
) -> Result<(), OutOfMemory>
    requires { IsVariantOf machine.now variant }
    ensures ok { OnOk result (text.new.items ≡ text.old.items ++ variant_text machine.now variant) }
{
    match variant {
        Variant::Doubled(unit) => {
            push_both(text, "unit ", machine.units()[usize::from(unit)].as_str())?;
            text.push_piece(" doubled")
        }
        Variant::Shortened(opcode) => {
            let latency = latency_of(machine, opcode) - 1;
            push_both(text, "latency ", opcode.word())?;
            push_told(text, " ", u64::from(latency))
        }
        Variant::Registers(number) => push_told(text, "registers ", u64::from(number)),
    }
}

/// How an interval compares with what the loop has on the machine as it is.
pub(crate) fn change_word(standing: Standing, ii: u64) -> &'static str
    ensures { result.now ≡ change_word standing ii }
{
    match standing {
        Standing::Failed => "new",
        Standing::Met(own, _) if ii < own => "shorter",
        Standing::Met(own, _) if own < ii => "longer",
        Standing::Met(_, _) => "same",
    }
}

/// Appends how an interval compares.
fn push_change(text: &mut Vec<u8>, standing: Standing, ii: u64) -> Result<(), OutOfMemory>
    ensures ok { OnOk result (text.new.items ≡ text.old.items ++ ((codes " " ++ change_word standing ii) ++ codes "\n")) }
{
    push_both(text, " ", change_word(standing, ii))?;
    text.push_piece("\n")
}

/// Appends what a loop has on a variant.
fn push_finding(text: &mut Vec<u8>, standing: Standing, finding: Finding) -> Result<(), OutOfMemory>
    ensures ok { OnOk result (text.new.items ≡ text.old.items ++ finding_text standing finding) }
{
    match finding {
        Finding::Limit => text.push_piece(" -\n"),
        Finding::Failed => text.push_piece(" failed\n"),
        Finding::Met(ii) => {
            push_told(text, " ii ", ii)?;
            push_change(text, standing, ii)
        }
    }
}

/// Appends the line of a variant.
pub(crate) fn push_line(
    text: &mut Vec<u8>,
    machine: &Machine,
    standing: Standing,
    variant: Variant,
    finding: Finding,
) -> Result<(), OutOfMemory>
    requires { IsVariantOf machine.now variant }
    ensures ok { OnOk result (text.new.items ≡ text.old.items ++ variant_line machine.now standing variant finding) }
{
    push_variant(text, machine, variant)?;
    push_finding(text, standing, finding)
}
