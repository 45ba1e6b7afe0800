//! What is told of a loop.

ghost use Rattle.std.specs.Prelude.{◌≡◌, ◌++◌, ℕ, List, IfOk, OnOk};
ghost use Rattle.told_choices.specs.Told.{IsTold, choice_of};
ghost use Rattle.explain.specs.Explanations.{IsExplained};

use crate::circuit::push_circuit;
use crate::intervals::tries::push_tries;
use candidates::Choice;
use loop_schedules::Prepared;
use lower_bounds::{LowerBounds, push_bounds_line};
use machine_data::OutOfMemory;
use std::alloc::Global;
use told_choices::{Told, choose_told};

/// Appends what [`push_explanation`] does, of what is told of the loop.
pub(crate) fn push_chosen(
    alloc: Global,
    text: &mut Vec<u8>,
    units: &[u8],
    need: u16,
    prepared: &Prepared,
    told: &Told,
) -> Result<(), OutOfMemory>
    requires told { IsTold prepared.now told.now }
    ensures ok { OnOk result ((part : List ℕ) × IsExplained units.now need prepared.now (choice_of told.now.chosen) part × (text.new.items ≡ text.old.items ++ part)) }
{
    let bounds = LowerBounds {
        resources: prepared.resources(),
        recurrences: prepared.recurrences(),
    };
    push_bounds_line(text, prepared.innermost(), bounds)?;
    text.extend_from_slice(units)?;
    let free = push_circuit(alloc, text, prepared)?;
    push_tries(alloc, text, need, free, prepared, told)
}

/// Appends why a loop has its interval: the line of its lower bounds, the lines of the units that are given, a
/// circuit that needs the recurrence-constrained bound, each interval that is tried with its cause, and what
/// holds the interval of its kernel, with the line `least possible` where that interval is what the recurrences or
/// the fullest set of units need, which is `need` cycles. The choice is that of the loop.
///
/// # Errors
/// Memory ran out. The text is left with a part of that.
pub fn push_explanation(
    alloc: Global,
    text: &mut Vec<u8>,
    units: &[u8],
    need: u16,
    prepared: &Prepared,
) -> Result<Choice, OutOfMemory>
    ensures exact { IfOk result (λ choice. (part : List ℕ) × IsExplained units.now need prepared.now choice part × (text.new.items ≡ text.old.items ++ part)) }
{
    let told = choose_told(alloc, prepared)?;
    push_chosen(alloc, text, units, need, prepared, &told)?;
    Ok(told.chosen.into_choice())
}
