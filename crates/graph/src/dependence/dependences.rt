//! All dependences of a loop.

ghost use Rattle.std.specs.Prelude.{◌≡◌, ℕ, IfOk, Vec};
ghost use Rattle.std.specs.Global.{Global};
ghost use Rattle.graph.specs.TablesAnswer.{TablesAnswer};
ghost use Rattle.graph.specs.Units.{first_without_table};
ghost use Rattle.graph.specs.Dependences.{latencies_of};
ghost use Rattle.graph.specs.Graphs.{IsGraphOf};
ghost use Rattle.graph.specs.Subscripts.{AreLatencies};

use crate::dependence::collect::collect;
use crate::fault::GraphFault;
use edges::{Edges, in_order};
use loop_data::Loop;
use machine_data::Machine;
use std::alloc::Global;

/// The latency of each operation of a loop.
fn latencies(alloc: Global, machine: &Machine, innermost: &Loop) -> Result<Vec<u8>, GraphFault>
    ensures exact { TablesAnswer (first_without_table machine.now innermost.now) (λ (v : Vec ℕ Global). v.items ≡ latencies_of machine.now innermost.now) result }
    ensures short { IfOk result (λ v. AreLatencies v.items) }
{
    let mut cycles = Vec::new(alloc);
    for statement in innermost.statements() {
        match machine.table(statement.opcode) {
            Some(table) => cycles.push(table.latency())?,
            None => return Err(GraphFault::NoTable(statement.opcode)),
        }
    }
    Ok(cycles)
}

/// The dependences between the operations of a loop with the latencies of a machine.
///
/// # Errors
/// [`GraphFault::NoTable`] for the first statement whose opcode the machine has no table for, and
/// [`GraphFault::Memory`] where memory ran out.
pub fn edges(alloc: Global, machine: &Machine, innermost: &Loop) -> Result<Edges, GraphFault>
    ensures exact { TablesAnswer (first_without_table machine.now innermost.now) (IsGraphOf machine.now innermost.now) result }
{
    let cycles = latencies(alloc, machine, innermost)?;
    let list = collect(alloc, innermost.statements(), cycles.as_slice())?;
    let ordered = in_order(alloc, list.as_slice(), cycles.len())?;
    Ok(Edges::new(alloc, ordered, cycles)?)
}
