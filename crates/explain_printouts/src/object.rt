//! Why a loop has its interval, as a JSON object.

ghost use Rattle.std.specs.Prelude.{◌≡◌, ◌++◌, ℕ, List, length, IfOk};
ghost use Rattle.graph.specs.Units.{operations_of};
ghost use Rattle.lower_bounds.specs.Faults.{TextAnswers, lacking_in};
ghost use Rattle.resource_bound.specs.Choices.{AreUnitChoices};
ghost use Rattle.unit_sets.specs.Fullest.{IsFullest};
ghost use Rattle.loop_listings.specs.declared.choices.Choice.{Choice};
ghost use Rattle.explain_printouts.specs.Objects.{IsObject, IsObjectOn};
ghost use Rattle.explain_printouts.specs.declared.object.Counted.{Counted};

use candidates::Choice;
use explain_json::push_loop_json;
use graph::{GraphFault, OfLoop};
use graph_text::critical_circuit;
use loop_data::Loop;
use loop_schedules::Prepared;
use lower_bounds::TextFault;
use machine_data::limits::MAX_STATEMENTS;
use machine_data::{Machine, OutOfMemory};
use resource_bound::unit_choices;
use std::alloc::Global;
use told_choices::choose_told;
use unit_sets::{UnitSet, fullest_set};

/// What is counted of the units that a loop uses: the alternatives of its resource-constrained bound, and the fullest set of units.
#[derive(Drop)]
struct Counted {
    alternatives: Vec<u8>,
    set: UnitSet,
}

/// What is counted of the units that a loop uses.
fn count_units(alloc: Global, machine: &Machine, innermost: &Loop) -> Result<Counted, TextFault>
    ensures exact { TextAnswers (lacking_in machine.now innermost.now) (λ (counted : Counted). AreUnitChoices (operations_of machine.now innermost.now) counted.alternatives.items × IsFullest (operations_of machine.now innermost.now) counted.set) result }
    ensures each { IfOk result (λ counted. length counted.alternatives.items ≡ length innermost.now.statements) }
{
    match unit_choices(alloc, machine, innermost) {
        Ok(alternatives) => {
            prove!(innermost.statements().len() <= MAX_STATEMENTS);
            let set = fullest_set(alloc, &OfLoop { machine, innermost })?;
            Ok(Counted { alternatives, set })
        }
        Err(GraphFault::NoTable(opcode)) => {
            Err(TextFault::NoTable(innermost.name().copied(), opcode))
        }
        Err(GraphFault::Memory) => Err(TextFault::Memory),
    }
}

/// Appends the object of a loop.
fn push_object(
    alloc: Global,
    text: &mut Vec<u8>,
    machine: &Machine,
    counted: &Counted,
    prepared: &Prepared,
) -> Result<Choice, OutOfMemory>
    requires each { length counted.now.alternatives.items ≡ length prepared.now.operations }
    ensures exact { IfOk result (λ choice. (part : List ℕ) × IsObject machine.now counted.now.alternatives.items counted.now.set prepared.now choice part × (text.new.items ≡ text.old.items ++ part)) }
{
    let told = choose_told(alloc, prepared)?;
    let circuit = critical_circuit(alloc, prepared.edges(), prepared.recurrences())?;
    push_loop_json(
        alloc,
        text,
        machine,
        counted.alternatives.as_slice(),
        &counted.set,
        circuit.as_slice(),
        prepared,
        &told,
    )?;
    Ok(told.chosen.into_choice())
}

/// Appends what is told of a loop that is prepared for the machine as a JSON object without blanks: the same as
/// [`explain::push_prepared`] tells, as [`push_loop_json`] writes it. The choice is that of the loop.
///
/// # Errors
/// [`TextFault::NoTable`] for the first statement whose opcode the machine has no table for, and
/// [`TextFault::Memory`] where memory ran out. The text is left with a part of that.
pub fn push_prepared_json(
    alloc: Global,
    text: &mut Vec<u8>,
    machine: &Machine,
    prepared: &Prepared,
) -> Result<Choice, TextFault>
    ensures exact { TextAnswers (lacking_in machine.now prepared.now.loop) (λ (choice : Choice). (part : List ℕ) × IsObjectOn machine.now prepared.now choice part × (text.new.items ≡ text.old.items ++ part)) result }
{
    let counted = count_units(alloc, machine, prepared.innermost())?;
    match push_object(alloc, text, machine, &counted, prepared) {
        Ok(choice) => Ok(choice),
        Err(_) => Err(TextFault::Memory),
    }
}
