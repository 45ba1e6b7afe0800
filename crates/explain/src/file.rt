//! What is told of the loops of a file.

ghost use Rattle.std.specs.Prelude.{◌≡◌, ◌<◌, ◌+◌, ◌++◌, ℕ, List, Vec, [], ◌∷◌, None, length, count_by, IfOk, OnOk};
ghost use Rattle.std.specs.Global.{Global};
ghost use Rattle.graph.specs.Units.{first_lacking, first_without_table, operations_of};
ghost use Rattle.lower_bounds.specs.Faults.{TextAnswers, lacking_in};
ghost use Rattle.loop_listings.specs.Listings.{is_failed, is_met};
ghost use Rattle.loop_listings.specs.declared.choices.Choice.{Choice};
ghost use Rattle.explain.specs.Explanations.{ArePartsOf, IsExplanationOf, IsPartOf, IsTold, IsToldOn, last_line};
ghost use Rattle.resource_bound.specs.Choices.{AreUnitChoices};
ghost use Rattle.resource_bound.specs.UnitLines.{unit_lines_of};
ghost use Rattle.explain.specs.SetLines.{set_line};
ghost use Rattle.explain.specs.declared.file.Tally.{Tally};
ghost use Rattle.explain.specs.declared.file.UnitLines.{UnitLines};
ghost use Rattle.unit_sets.specs.Fullest.{IsFullest};

use crate::shown::push_shown;
use crate::single::push_chosen;
use candidates::{Choice, prepare};
use graph::{GraphFault, OfLoop};
use loop_data::Loop;
use loop_schedules::Prepared;
use lower_bounds::TextFault;
use machine_data::limits::MAX_STATEMENTS;
use machine_data::{Machine, OutOfMemory};
use reason_lines::push_set_line;
use resource_bound::{push_unit_lines, unit_choices};
use settings::Settings;
use std::alloc::Global;
use told_choices::choose_told;
use unit_sets::{UnitSet, fullest_set};

/// A guess of how many bytes are told of a loop, for the first reservation.
const PART: usize = 512;

/// Why each loop of a file has its interval.
#[derive(Drop)]
pub struct Explained {
    pub text: Vec<u8>,
    /// Whether no loop is without a kernel.
    pub all_met: bool,
}

/// How many loops have a kernel, and how many have none.
#[derive(Clone, Copy)]
pub(crate) struct Tally {
    pub(crate) met: u64,
    pub(crate) failed: u64,
}

impl Tally {
    /// The tally with one loop more.
    fn with(self, choice: &Choice) -> Tally
        requires few { self.met + self.failed < 18446744073709551615 }
        ensures met { result.met ≡ self.met + count_by is_met (choice.now ∷ []) }
        ensures failed { result.failed ≡ self.failed + count_by is_failed (choice.now ∷ []) }
        ensures one { result.met + result.failed ≡ self.met + self.failed + 1 }
    {
        match choice {
            Choice::Met(_, _) => Tally {
                met: self.met + 1,
                failed: self.failed,
            },
            Choice::Failed(_) => Tally {
                met: self.met,
                failed: self.failed + 1,
            },
        }
    }
}

/// The lines of the units that a loop uses, with the fullest set of them.
#[derive(Drop)]
struct UnitLines {
    text: Vec<u8>,
    set: UnitSet,
}

/// The fullest set of units of a loop.
fn set_of(alloc: Global, machine: &Machine, innermost: &Loop) -> Result<UnitSet, OutOfMemory>
    requires { first_without_table machine.now innermost.now ≡ None }
    ensures exact { IfOk result (IsFullest (operations_of machine.now innermost.now)) }
{
    prove!(innermost.statements().len() <= MAX_STATEMENTS);
    fullest_set(alloc, &OfLoop { machine, innermost })
}

/// The lines of the units that a loop uses, by these choices of alternatives, and of the fullest set.
fn lines_by(
    alloc: Global,
    machine: &Machine,
    innermost: &Loop,
    choices: &[u8],
) -> Result<UnitLines, OutOfMemory>
    requires tables { first_without_table machine.now innermost.now ≡ None }
    requires each { length choices.now ≡ length innermost.now.statements }
    ensures fullest { IfOk result (λ lines. IsFullest (operations_of machine.now innermost.now) lines.set) }
    ensures exact { IfOk result (λ lines. lines.text.items ≡ unit_lines_of machine.now innermost.now choices.now ++ set_line machine.now lines.set) }
{
    let set = set_of(alloc, machine, innermost)?;
    let mut text = Vec::new(alloc);
    push_unit_lines(&mut text, machine, innermost, choices)?;
    push_set_line(&mut text, machine, &set)?;
    Ok(UnitLines { text, set })
}

/// The lines of the units that a loop uses, by the alternatives that its resource-constrained bound counts, and of the fullest set.
fn unit_lines(alloc: Global, machine: &Machine, innermost: &Loop) -> Result<UnitLines, TextFault>
    ensures exact { TextAnswers (lacking_in machine.now innermost.now) (λ (lines : UnitLines). (alternatives : List ℕ) × AreUnitChoices (operations_of machine.now innermost.now) alternatives × IsFullest (operations_of machine.now innermost.now) lines.set × (lines.text.items ≡ unit_lines_of machine.now innermost.now alternatives ++ set_line machine.now lines.set)) result }
{
    match unit_choices(alloc, machine, innermost) {
        Ok(alternatives) => {
            let lines = lines_by(alloc, machine, innermost, alternatives.as_slice())?;
            Ok(lines)
        }
        Err(GraphFault::NoTable(opcode)) => {
            Err(TextFault::NoTable(innermost.name().copied(), opcode))
        }
        Err(GraphFault::Memory) => Err(TextFault::Memory),
    }
}

/// Appends why a loop has its interval, and the schedule and the registers of its kernel.
fn push_part(
    alloc: Global,
    text: &mut Vec<u8>,
    machine: &Machine,
    units: &UnitLines,
    prepared: &Prepared,
) -> Result<Choice, OutOfMemory>
    ensures exact { IfOk result (λ choice. (part : List ℕ) × IsTold machine.now units.now.text.items units.now.set.need prepared.now choice part × (text.new.items ≡ text.old.items ++ part)) }
{
    let told = choose_told(alloc, prepared)?;
    let lines = units.text.as_slice();
    push_chosen(alloc, text, lines, units.set.need, prepared, &told)?;
    push_shown(alloc, text, machine, prepared, &told.chosen)?;
    Ok(told.chosen.into_choice())
}

/// Appends what is told of a loop that is prepared for the machine: what [`push_explanation`](crate::push_explanation)
/// writes, with the lines of the units that the loop uses and of the fullest set of units, and the schedule and the registers of its kernel. The
/// choice is that of the loop.
///
/// # Errors
/// [`TextFault::NoTable`] for the first statement whose opcode the machine has no table for, and
/// [`TextFault::Memory`] where memory ran out. The text is left with a part of that.
pub fn push_prepared(
    alloc: Global,
    text: &mut Vec<u8>,
    machine: &Machine,
    prepared: &Prepared,
) -> Result<Choice, TextFault>
    ensures exact { TextAnswers (lacking_in machine.now prepared.now.loop) (λ (choice : Choice). (part : List ℕ) × IsToldOn machine.now prepared.now choice part × (text.new.items ≡ text.old.items ++ part)) result }
{
    let units = unit_lines(alloc, machine, prepared.innermost())?;
    match push_part(alloc, text, machine, &units, prepared) {
        Ok(choice) => Ok(choice),
        Err(_) => Err(TextFault::Memory),
    }
}

/// Appends what is told of a loop.
fn push_loop(
    alloc: Global,
    text: &mut Vec<u8>,
    machine: &Machine,
    innermost: Loop,
    settings: &Settings,
) -> Result<Choice, TextFault>
    ensures exact { TextAnswers (lacking_in machine.now innermost) (λ (choice : Choice). (part : List ℕ) × IsPartOf machine.now settings.now.ratio settings.now.ceiling innermost choice part × (text.new.items ≡ text.old.items ++ part)) result }
{
    let name = innermost.name().copied();
    match prepare(alloc, machine, innermost, settings) {
        Ok(prepared) => push_prepared(alloc, text, machine, &prepared),
        Err(GraphFault::NoTable(opcode)) => Err(TextFault::NoTable(name, opcode)),
        Err(GraphFault::Memory) => Err(TextFault::Memory),
    }
}

/// Appends what is told of each loop.
fn push_loops(
    alloc: Global,
    text: &mut Vec<u8>,
    machine: &Machine,
    loops: Vec<Loop>,
    settings: &Settings,
) -> Result<Tally, TextFault>
    ensures exact { TextAnswers (first_lacking machine.now loops.items) (λ (tally : Tally). (parts : List ℕ) × ArePartsOf machine.now settings.now.ratio settings.now.ceiling loops.items parts tally.met tally.failed × (text.new.items ≡ text.old.items ++ parts)) result }
{
    let mut tally = Tally { met: 0, failed: 0 };
    let mut loops = loops.into_iter();
    while let Some(innermost) = loops.next() {
        let choice = push_loop(alloc, text, machine, innermost, settings)?;
        tally = tally.with(&choice);
    }
    Ok(tally)
}

/// Appends the last line, with the number of loops, of those with a kernel and of those without.
///
/// # Errors
/// Memory ran out. The text is left with a part of that.
pub fn push_last(text: &mut Vec<u8>, loops: u64, met: u64, failed: u64) -> Result<(), OutOfMemory>
    ensures ok { OnOk result (text.new.items ≡ text.old.items ++ last_line loops met failed) }
{
    writing::push_last(text, "loops ", loops, met, failed)
}

/// Why each loop of a file has its interval, in order, with the ratio and the ceiling of the settings: what
/// [`push_explanation`](crate::push_explanation) writes of each, and a last line `loops A met B failed F` with
/// how many loops there are, how many have a kernel and how many have none.
///
/// # Errors
/// [`TextFault::NoTable`] for the first statement whose opcode the machine has no table for, and
/// [`TextFault::Memory`] where memory ran out.
pub fn explain_lines(
    alloc: Global,
    machine: &Machine,
    loops: Vec<Loop>,
    settings: &Settings,
) -> Result<Explained, TextFault>
    ensures exact { TextAnswers (first_lacking machine.now loops.items) (IsExplanationOf machine.now settings.now.ratio settings.now.ceiling loops.items) result }
{
    let number = loops.len();
    let mut text = Vec::with_capacity(alloc, PART.saturating_mul(number))?;
    let tally = push_loops(alloc, &mut text, machine, loops, settings)?;
    push_last(&mut text, number as u64, tally.met, tally.failed)?;
    Ok(Explained {
        text,
        all_met: tally.failed == 0,
    })
}
