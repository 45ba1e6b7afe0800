//! The choices that the resource-constrained lower bound makes.

ghost use Rattle.std.specs.Prelude.{◌≡◌, ◌≢◌, ℕ, ◌*◌, ◌-◌, ◌<◌, ◌≤◌, ◌==◌, ◌++◌, List, Vec, length, filter, IfOk};
ghost use Rattle.std.specs.Global.{Global};
ghost use Rattle.std.specs.List.{All};
ghost use Rattle.machine_data.specs.declared.alternative.Row.{Row};
ghost use Rattle.graph.specs.TablesAnswer.{TablesAnswer};
ghost use Rattle.graph.specs.Units.{first_without_table, operations_of};
ghost use Rattle.unit_bound.specs.Uses.{AtMost};
ghost use Rattle.resource_bound.specs.Choices.{AreUnitChoices, choices_among};
ghost use Rattle.resource_bound.specs.inner.Tallies.{HasChosen};

use crate::tally::Tally;
use graph::{GraphFault, OfLoop, missing_table};
use loop_data::Loop;
use machine_data::limits::{MAX_OPERATION_ALTERNATIVES, MAX_STATEMENTS};
use machine_data::{Alternatives, Machine, OutOfMemory};
use std::alloc::Global;
use unit_bound::{OfList, Offers};

/// Makes the choices of all operations that have `freedom` alternatives, in their order, after the rows
/// that are counted, and counts theirs too.
fn choose_among<O: Offers>(
    operations: &O,
    freedom: usize,
    counted: Tally,
    choices: &mut [u8],
) -> Tally
    requires sound { O.sound operations.now }
    requires count { length (O.operations operations.now) ≤ 128 }
    requires some { 0 < freedom }
    requires few { freedom ≤ 16 }
    requires each { length choices.old ≡ length (O.operations operations.now) }
    requires room { AtMost (2048 * (freedom - 1)) counted.counts }
    ensures taken { (done : List (List (List Row))) (made : List ℕ) → HasChosen done made counted.counts counted.greatest
        → HasChosen (done ++ filter (λ alternatives. length alternatives == freedom) (O.operations operations.now))
        (made ++ choices_among (O.operations operations.now) choices.new freedom) result.counts result.greatest }
    ensures kept { (n : ℕ) → n ≢ freedom → choices_among (O.operations operations.now) choices.new n ≡ choices_among (O.operations operations.now) choices.old n }
    ensures grown { AtMost (2048 * freedom) result.counts }
{
    let mut tally = counted;
    for number in 0..operations.count() {
        let alternatives = operations.alternatives(number);
        if alternatives.len() == freedom {
            let choice = tally.choose(alternatives);
            choices[number] = choice.number;
            tally = choice.tally;
        }
    }
    tally
}

/// The greatest number of alternatives that an operation has, 0 where there is no operation.
fn most_alternatives<O: Offers>(operations: &O) -> usize
    requires { O.sound operations.now }
    ensures all { All (λ (alternatives : List (List Row)). length alternatives ≤ result) (O.operations operations.now) }
    ensures few { result ≤ MAX_OPERATION_ALTERNATIVES }
{
    let mut most = 0;
    for number in 0..operations.count() {
        most = most.max(operations.alternatives(number).len());
    }
    most
}

/// The choices of at most 128 operations.
fn choices_of<O: Offers>(alloc: Global, operations: &O) -> Result<Vec<u8>, OutOfMemory>
    requires sound { O.sound operations.now }
    requires count { length (O.operations operations.now) ≤ 128 }
    ensures exact { IfOk result (λ choices. AreUnitChoices (O.operations operations.now) choices.items) }
{
    let mut choices = vec![in alloc; 0u8; operations.count()]?;
    let mut tally = Tally::none();
    let most = most_alternatives(operations);
    for freedom in 1..most + 1 {
        tally = choose_among(operations, freedom, tally, &mut choices);
    }
    Ok(choices)
}

/// Which alternative each operation of a loop takes in the resource-constrained lower bound of the loop's
/// interval on a machine, as [`res_mii`](graph::res_mii) describes it: a place for each operation, in text
/// order, from 0, below 16.
///
/// # Errors
/// [`GraphFault::NoTable`] for the first statement whose opcode the machine has no table for, and
/// [`GraphFault::Memory`] where memory ran out.
pub fn unit_choices(
    alloc: Global,
    machine: &Machine,
    innermost: &Loop,
) -> Result<Vec<u8>, GraphFault>
    ensures exact { TablesAnswer (first_without_table machine.now innermost.now) (λ (choices : Vec ℕ Global). AreUnitChoices (operations_of machine.now innermost.now) choices.items) result }
    ensures each { IfOk result (λ choices. length choices.items ≡ length innermost.now.statements) }
{
    if let Some(opcode) = missing_table(machine, innermost) {
        return Err(GraphFault::NoTable(opcode));
    }
    prove!(innermost.statements().len() <= MAX_STATEMENTS);
    Ok(choices_of(alloc, &OfLoop { machine, innermost })?)
}

/// [`unit_choices`] of operations that are given by the alternatives of each, at most 128 of them.
///
/// # Errors
/// [`OutOfMemory`] where memory ran out.
pub fn unit_choices_of(alloc: Global, operations: &[Alternatives]) -> Result<Vec<u8>, OutOfMemory>
    requires few { length operations.now ≤ MAX_STATEMENTS }
    ensures exact { IfOk result (λ choices. AreUnitChoices operations.now choices.items) }
{
    choices_of(alloc, &OfList { operations })
}
