//! What is chosen for each loop, from reports.
ghost use Rattle.std.specs.Prelude.{◌≡◌, ◌<◌, ◌≤◌, ◌+◌, ◌++◌, ◌∷◌, length, [], IfOk};
ghost use Rattle.std.specs.List.{All, AllZip};
ghost use Rattle.candidates.specs.Choices.{IsChoice};
ghost use Rattle.reports.specs.Gathered.{retried_from};
ghost use Rattle.collecting.specs.inner.Cells.{AddsChoice, ChosenData, IsFirst, AreCellsOf};
ghost use Rattle.machine_data.specs.declared.limits.TheConstants.{MAX_LOOPS};

use crate::cells::{LoopCells, empty_cells, fill};
use crate::climbs::climb;
use candidates::Choice;
use loop_schedules::Prepared;
use machine_data::OutOfMemory;
use reports::Report;
use std::alloc::Global;
use std::marker::Model;

/// The choices of loops, and how many intervals were tried for them when reports were gathered.
#[derive(Drop)]
pub struct Chosen {
    choices: Vec<Choice>,
    retried: u64,
}

impl Model for Chosen {
    ghost Value = { ChosenData };

    ghost view = { λ c. record { choices = c.choices.items; retried = c.retried } };
}

impl Chosen {
    /// The choice of each loop.
    pub fn choices(&self) -> &[Choice]
        ensures value { result.now ≡ self.now.choices }
    {
        self.choices.as_slice()
    }

    /// The choices alone.
    pub fn into_choices(self) -> Vec<Choice>
        ensures value { result.items ≡ self.choices }
    {
        let Chosen {
            choices,
            retried: _,
        } = self;
        choices
    }

    /// How many intervals were tried for them.
    pub fn retried(&self) -> u64
        ensures value { result ≡ self.now.retried }
    {
        self.retried
    }

    /// No choices.
    fn none(alloc: Global) -> Chosen
        ensures choices { result.choices ≡ [] }
        ensures retried { result.retried ≡ 0 }
    {
        Chosen {
            choices: Vec::new(alloc),
            retried: 0,
        }
    }

    /// Adds a choice.
    fn add(&mut self, choice: Choice, tries: u64) -> Result<(), OutOfMemory>
        requires few { self.old.retried + tries < 18446744073709551616 }
        ensures choices { IfOk result (λ _. self.new.choices ≡ self.old.choices ++ choice ∷ []) }
        ensures retried { IfOk result (λ _. self.new.retried ≡ self.old.retried + tries) }
    {
        self.choices.push(choice)?;
        self.retried += tries;
        Ok(())
    }
}

/// Adds a loop's choice.
fn choose(
    alloc: Global,
    prepared: &Prepared,
    row: &mut LoopCells,
    chosen: &mut Chosen,
) -> Result<(), OutOfMemory>
    requires row { AreCellsOf prepared.now row.old }
    requires few { chosen.old.retried ≤ 1000000 }
    ensures { IfOk result (λ _. AddsChoice prepared.now row.old chosen.old chosen.new) }
{
    let (choice, tries) = climb(alloc, prepared, row)?;
    chosen.add(choice, tries)
}

/// The choices of all loops.
fn choose_all(
    alloc: Global,
    loops: &[Prepared],
    rows: &mut [LoopCells],
) -> Result<Chosen, OutOfMemory>
    requires few { length loops.now ≤ MAX_LOOPS }
    requires rows { AllZip AreCellsOf loops.now rows.old }
    ensures all { IfOk result (λ c. length c.choices ≡ length loops.now) }
    ensures first { IfOk result (λ c. IsFirst loops.now rows.old c.choices c.retried) }
{
    let mut chosen = Chosen::none(alloc);
    for number in 0..loops.len() {
        if let Err(fault) = choose(alloc, &loops[number], &mut rows[number], &mut chosen) {
            return Err(fault);
        }
    }
    Ok(chosen)
}

/// The choice of each loop: whatever the reports tell, it is that of one thread that tries the intervals
/// one after another. Intervals for which no report has a kernel or a cause are tried.
///
/// # Errors
/// Memory ran out.
pub fn gather(
    alloc: Global,
    loops: &[Prepared],
    reports: Vec<Report<'_>>,
) -> Result<Chosen, OutOfMemory>
    requires few { length loops.now ≤ MAX_LOOPS }
    requires same { All (λ r. r.loops ≡ loops.now) reports.items }
    ensures choices { IfOk result (λ c. AllZip IsChoice loops.now c.choices) }
    ensures retried { IfOk result (λ c. c.retried ≡ retried_from reports.entry.items 0 loops.now c.choices) }
{
    let mut rows = empty_cells(alloc, loops)?;
    fill(rows.as_mut_slice(), loops, reports);
    choose_all(alloc, loops, rows.as_mut_slice())
}
