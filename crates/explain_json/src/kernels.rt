//! The kernel of a loop, with its schedule and its registers.

ghost use Rattle.std.specs.Prelude.{◌≡◌, ◌<◌, IfOk};
ghost use Rattle.std.specs.List.{All};
ghost use Rattle.serde_json.specs.Data.{Data, Members};
ghost use Rattle.serde_json.specs.View.{members_view, view};
ghost use Rattle.machine_data.specs.declared.limits.TheConstants.{MAX_UNITS};
ghost use Rattle.told_intervals.specs.Reasons.{IsMet};
ghost use Rattle.figures.specs.Slots.{used_units};
ghost use Rattle.explain_json.specs.inner.Objects.{unit_members, with_values};
ghost use Rattle.explain_json.specs.Kernels.{figures_object, kernel_object};

use crate::names::told_unit_names;
use crate::slots::told_slots;
use crate::values::{told_counts, told_need, told_percents, told_values};
use figures::{Figures, Takers, counts_of, greatest_of};
use json_objects::{object_of, with, with_value};
use loop_schedules::Prepared;
use machine_data::{Machine, OutOfMemory};
use rotating::lifetimes;
use serde_json::{Map, ToValue, Value};
use std::alloc::Global;
use told_choices::{Why, hold_of, is_least_possible};
use told_intervals::Met;
use unit_sets::UnitSet;

/// The figures of a schedule that has so many stages, with in how many hundredths of the interval each unit is taken.
fn told_figures(
    alloc: Global,
    figures: &Figures,
    stages: u64,
    percents: Result<Value, OutOfMemory>,
) -> Result<Value, OutOfMemory>
    ensures { (d : Data) → IfOk percents (λ v. view v ≡ d) → IfOk result (λ v. view v ≡ figures_object figures.now stages d) }
{
    let turns = Value::from(stages.saturating_sub(1));
    let members = Ok(Map::new(alloc));
    let members = with_value(alloc, members, "cycles", Value::from(figures.cycles));
    let members = with_value(alloc, members, "extra_turns", turns);
    let members = with_value(alloc, members, "need", told_need(figures.need));
    object_of(with(alloc, members, "percent", percents))
}

/// What is told of the units that operations take, by which operation takes which slot; the figures are those of a schedule that has
/// so many stages.
fn members_by(
    alloc: Global,
    machine: &Machine,
    takers: &Takers,
    used: &[u8],
    ii: u64,
    figures: &Figures,
    stages: u64,
) -> Result<Map<String, Value>, OutOfMemory>
    requires rows { takers.now.ii ≡ ii }
    requires used { used.now ≡ used_units machine.now takers.now }
    requires few { All (λ unit. unit < MAX_UNITS) used.now }
    ensures { IfOk result (λ m. members_view m.entries ≡ unit_members machine.now takers.now figures.now stages) }
{
    let percents = told_percents(alloc, takers, used);
    let told = told_figures(alloc, figures, stages, percents);
    let idle = Value::from(machine.units().len().saturating_sub(used.len()));
    let slots = told_slots(alloc, takers, used, ii);
    let members = with(alloc, Ok(Map::new(alloc)), "figures", told);
    let members = with_value(alloc, members, "idle_units", idle);
    let members = with(alloc, members, "slots", slots);
    with(
        alloc,
        members,
        "units",
        told_unit_names(alloc, machine, used),
    )
}

/// What is told of the units that operations take, and of the figures of a schedule that has so many stages.
fn members_of(
    alloc: Global,
    machine: &Machine,
    met: &Met,
    figures: &Figures,
    stages: u64,
) -> Result<Map<String, Value>, OutOfMemory>
    ensures { IfOk result (λ m. members_view m.entries ≡ unit_members machine.now met.now.schedule figures.now stages) }
{
    let takers = Takers::of(alloc, &met.schedule)?;
    let used = takers.units(alloc, machine)?;
    let ii = met.schedule.ii();
    let listed = used.as_slice();
    members_by(alloc, machine, &takers, listed, ii, figures, stages)
}

/// These members, and what is told of the values of a kernel and their registers.
fn with_values(
    alloc: Global,
    members: Result<Map<String, Value>, OutOfMemory>,
    _prepared: &Prepared,
    _ii: u64,
    met: &Met,
) -> Result<Map<String, Value>, OutOfMemory>
    requires { IsMet _prepared.now _ii met.now }
    ensures { (ms : Members) → IfOk members (λ m. members_view m.entries ≡ ms) → IfOk result (λ m. members_view m.entries ≡ with_values ms met.now.schedule met.now.allotment.numbers) }
{
    let lives = lifetimes(alloc, &met.schedule)?;
    let listed = lives.as_slice();
    let counts = counts_of(alloc, &met.schedule, listed)?;
    let most = Value::from(greatest_of(counts.as_slice()));
    let members = with(
        alloc,
        members,
        "live",
        told_counts(alloc, counts.as_slice()),
    );
    let members = with_value(alloc, members, "max_live", most);
    let values = told_values(alloc, listed, met.allotment.numbers());
    with(alloc, members, "values", values)
}

/// The kernel of an interval, with the figures of its schedule; `free` tells that no circuit needs the recurrence-constrained bound, and the reasons are those of the
/// intervals before.
pub(crate) fn told_kernel(
    alloc: Global,
    machine: &Machine,
    set: &UnitSet,
    free: bool,
    prepared: &Prepared,
    reasons: &[Why],
    ii: u64,
    met: &Met,
    figures: &Figures,
) -> Result<Value, OutOfMemory>
    requires { IsMet prepared.now ii met.now }
    ensures { IfOk result (λ v. view v ≡ kernel_object machine.now set.now free prepared.now reasons.now ii met.now figures.now) }
{
    let stages = met.kernel.parts().stages;
    let held = hold_of(prepared, free, reasons).word();
    let least = is_least_possible(prepared, set.need, ii);
    let registers = Value::from(prepared.registers());
    let members = members_of(alloc, machine, met, figures, stages);
    let members = with_values(alloc, members, prepared, ii, met);
    let members = with(alloc, members, "held_by", held.to_value(alloc));
    let members = with_value(alloc, members, "ii", Value::from(ii));
    let members = with_value(alloc, members, "least_possible", Value::from(least));
    let members = with_value(alloc, members, "registers", registers);
    object_of(with_value(alloc, members, "stages", Value::from(stages)))
}
