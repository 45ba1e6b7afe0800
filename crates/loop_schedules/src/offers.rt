//! Copies of the alternatives that a machine offers for the operations of a loop.

ghost use Rattle.std.specs.Prelude.{◌≡◌, ◌<◌, ◌⊎◌, ℕ, Some, None, length, slice_set, IfOk};
ghost use Rattle.std.specs.List.{All, slice_index_or};
ghost use Rattle.machine_data.specs.Alternative.{AreAlternatives};
ghost use Rattle.machine_data.specs.Opcodes.{opcode_number};
ghost use Rattle.loop_data.specs.Loops.{IsLoop};
ghost use Rattle.graph.specs.TablesAnswer.{TablesAnswer};
ghost use Rattle.graph.specs.Units.{first_without_table, operations_of};
ghost use Rattle.schedules.specs.Problems.{AreKinds};
ghost use Rattle.loop_schedules.specs.declared.offers.Offered.{Offered};
ghost use Rattle.loop_schedules.specs.inner.Offers.{IsAlike};

use graph::GraphFault;
use loop_data::Loop;
use machine_data::{Alternatives, Machine, OPCODES, Opcode};
use std::alloc::Global;

/// The alternatives of the operations of a loop, in text order, and which operations have the same ones.
#[derive(Drop)]
pub(crate) struct Offered {
    /// The alternatives of each operation.
    pub(crate) alternatives: Vec<Alternatives>,
    /// Of each operation the number of an earlier one that has the same alternatives, or its own.
    pub(crate) kinds: Vec<usize>,
}

/// The alternatives of each operation of a loop. Operations of one opcode have the same ones, and often those of several do.
pub(crate) fn offers(
    alloc: Global,
    machine: &Machine,
    innermost: &Loop,
) -> Result<Offered, GraphFault>
    ensures exact { TablesAnswer (first_without_table machine.now innermost.now) (λ (v : Offered). v.alternatives.items ≡ operations_of machine.now innermost.now) result }
    ensures offered { IfOk result (λ v. All AreAlternatives v.alternatives.items) }
    ensures kinds { IfOk result (λ v. AreKinds v.alternatives.items v.kinds.items) }
    ensures innermost { IsLoop innermost.now }
{
    let mut list = Vec::with_capacity(alloc, innermost.statements().len())?;
    let mut kinds = Vec::with_capacity(alloc, innermost.statements().len())?;
    let mut noted = [None; OPCODES];
    for statement in innermost.statements() {
        match machine.table(statement.opcode) {
            Some(table) => {
                let own = table.alternatives();
                kinds.push(alike(&mut noted, statement.opcode, list.as_slice(), own))?;
                list.push(own.copied(alloc)?)?;
            }
            None => return Err(GraphFault::NoTable(statement.opcode)),
        }
    }
    Ok(Offered {
        alternatives: list,
        kinds,
    })
}

/// An operation that has these alternatives, which are those of an opcode: the one that is noted for the opcode, or
/// else one that is noted for another opcode, or else the next of the list. It is noted from now on.
fn alike(
    noted: &mut [Option<usize>],
    opcode: Opcode,
    list: &[Alternatives],
    alternatives: &Alternatives,
) -> usize
    requires opcodes { length noted.old ≡ 13 }
    requires there { (number op : ℕ) → slice_index_or noted.old number None ≡ Some op → op < length list.now }
    ensures there { opcode_number opcode < length noted.old }
    ensures value { (slice_index_or noted.old (opcode_number opcode) None ≡ Some result) ⊎ IsAlike list.now alternatives.now result }
    ensures noted { noted.new ≡ slice_set noted.old (opcode_number opcode) (Some result) }
{
    let op = match noted[opcode.number()] {
        Some(op) => op,
        None => other_alike(noted, list, alternatives),
    };
    noted[opcode.number()] = Some(op);
    op
}

/// One of the operations noted that has these alternatives, or else the next of the list.
fn other_alike(noted: &[Option<usize>], list: &[Alternatives], alternatives: &Alternatives) -> usize
    requires there { (number op : ℕ) → slice_index_or noted.now number None ≡ Some op → op < length list.now }
    ensures { IsAlike list.now alternatives.now result }
{
    for one in noted {
        if let Some(op) = one {
            if list[*op].are_same(alternatives) {
                return *op;
            }
        }
    }
    list.len()
}
