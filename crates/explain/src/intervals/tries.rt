//! The lines of the intervals that were tried.

ghost use Rattle.std.specs.Prelude.{◌≡◌, ◌++◌, ℕ, List, Vec, map, IfOk, OnOk};
ghost use Rattle.std.specs.Global.{Global};
ghost use Rattle.std.specs.List.{All};
ghost use Rattle.loop_schedules.specs.Problems.{mii_of};
ghost use Rattle.told_choices.specs.Told.{IsTold, choice_of};
ghost use Rattle.told_choices.specs.Whys.{IsWhy};
ghost use Rattle.told_choices.specs.declared.why.Why.{Why};
ghost use Rattle.reason_lines.specs.Least.{least_line};
ghost use Rattle.reason_lines.specs.Runs.{runs_text};
ghost use Rattle.explain.specs.Tries.{AreTries, IsEnd, hold_line, kernel_line, why_text};

use crate::intervals::reason_texts::push_reason;
use loop_schedules::Prepared;
use machine_data::OutOfMemory;
use reason_lines::{push_least, push_runs};
use std::alloc::Global;
use told_choices::{Chosen, Hold, Told, Why, hold_of, is_least_possible};
use writing::{Text, push_both, push_told};

/// What is told of an interval that gives no kernel: the cause and its culprits.
fn why_of(alloc: Global, prepared: &Prepared, reason: &Why) -> Result<Vec<u8>, OutOfMemory>
    requires is { (ii : ℕ) × IsWhy prepared.now ii reason.now }
    ensures ok { IfOk result (λ why. why.items ≡ why_text prepared.now.loop reason.now) }
{
    let mut why = Vec::new(alloc);
    push_both(&mut why, " ", reason.cause().word())?;
    why.push_piece(":")?;
    push_reason(&mut why, prepared, reason)?;
    Ok(why)
}

/// What is told of each interval that gives no kernel.
fn whys_of(alloc: Global, prepared: &Prepared, reasons: &[Why]) -> Result<Vec<Vec<u8>>, OutOfMemory>
    requires are { All (λ (reason : Why). (ii : ℕ) × IsWhy prepared.now ii reason) reasons.now }
    ensures ok { IfOk result (λ whys. map (λ (why : Vec ℕ Global). why.items) whys.items ≡ map (why_text prepared.now.loop) reasons.now) }
{
    let mut whys = Vec::with_capacity(alloc, reasons.len())?;
    for reason in reasons {
        whys.push(why_of(alloc, prepared, reason)?)?;
    }
    Ok(whys)
}

/// Appends the lines of the intervals, from the least one on, that give no kernel.
fn push_failures(
    alloc: Global,
    text: &mut Vec<u8>,
    prepared: &Prepared,
    told: &Told,
) -> Result<(), OutOfMemory>
    requires told { IsTold prepared.now told.now }
    ensures ok { OnOk result (text.new.items ≡ text.old.items ++ runs_text (mii_of prepared.now) (map (why_text prepared.now.loop) told.now.reasons.items)) }
{
    let whys = whys_of(alloc, prepared, told.reasons.as_slice())?;
    push_runs(text, prepared.mii(), whys.as_slice())
}

/// Appends the line of an interval, in cycles, that gives a kernel of `stages` stages.
fn push_kernel(text: &mut Vec<u8>, interval: u64, stages: u64) -> Result<(), OutOfMemory>
    ensures ok { OnOk result (text.new.items ≡ text.old.items ++ kernel_line interval stages) }
{
    push_told(text, "try ", interval)?;
    push_told(text, " kernel stages ", stages)?;
    text.push_piece("\n")
}

/// Appends the line of what holds an interval.
fn push_hold(text: &mut Vec<u8>, hold: Hold) -> Result<(), OutOfMemory>
    ensures ok { OnOk result (text.new.items ≡ text.old.items ++ hold_line hold) }
{
    push_both(text, "held by ", hold.word())?;
    text.push_piece("\n")
}

/// Appends the lines of an interval, in cycles, that gives a kernel of `stages` stages.
fn push_met(
    text: &mut Vec<u8>,
    interval: u64,
    stages: u64,
    hold: Hold,
    least: bool,
) -> Result<(), OutOfMemory>
    ensures ok { OnOk result (text.new.items ≡ text.old.items ++ ((kernel_line interval stages ++ hold_line hold) ++ least_line least)) }
{
    push_kernel(text, interval, stages)?;
    push_hold(text, hold)?;
    push_least(text, least)
}

/// Appends the lines of the interval that is chosen, where there is one.
fn push_end(
    text: &mut Vec<u8>,
    prepared: &Prepared,
    need: u16,
    free: bool,
    told: &Told,
) -> Result<(), OutOfMemory>
    requires told { IsTold prepared.now told.now }
    ensures ok { OnOk result ((end : List ℕ) × IsEnd prepared.now need free (choice_of told.now.chosen) end × (text.new.items ≡ text.old.items ++ end)) }
{
    match &told.chosen {
        Chosen::Met(ii, met, _) => {
            let hold = hold_of(prepared, free, told.reasons.as_slice());
            let least = is_least_possible(prepared, need, *ii);
            push_met(text, *ii, met.kernel.parts().stages, hold, least)
        }
        Chosen::Failed(_) => Ok(()),
    }
}

/// Appends what each interval gives that was tried. The fullest set of units needs an interval of `need` cycles; `free` tells that no
/// circuit needs the recurrence-constrained bound.
pub(crate) fn push_tries(
    alloc: Global,
    text: &mut Vec<u8>,
    need: u16,
    free: bool,
    prepared: &Prepared,
    told: &Told,
) -> Result<(), OutOfMemory>
    requires told { IsTold prepared.now told.now }
    ensures ok { OnOk result ((tries : List ℕ) × AreTries prepared.now need free (choice_of told.now.chosen) tries × (text.new.items ≡ text.old.items ++ tries)) }
{
    push_failures(alloc, text, prepared, told)?;
    push_end(text, prepared, need, free, told)
}
