//! The resource-constrained lower bound of a loop's initiation interval.

ghost use Rattle.std.specs.Prelude.{◌≡◌, ◌≢◌, ◌≤◌, IfOk, IfErr};
ghost use Rattle.graph.specs.TablesAnswer.{TablesAnswer};
ghost use Rattle.graph.specs.Units.{first_without_table, operations_of};
ghost use Rattle.unit_bound.specs.Units.{IsUnitBound};
ghost use Rattle.unit_bound.specs.Uses.{IsBelowLawful};

use crate::fault::GraphFault;
use crate::offers::OfLoop;
use loop_data::Loop;
use machine_data::limits::MAX_STATEMENTS;
use machine_data::{Machine, Opcode};
use unit_bound::bound_of;

/// The opcode of the first statement whose opcode the machine has no table for, if there is one.
pub fn missing_table(machine: &Machine, innermost: &Loop) -> Option<Opcode>
    ensures { result ≡ first_without_table machine.now innermost.now }
{
    innermost
        .statements()
        .iter()
        .map(|statement| statement.opcode)
        .find(|opcode| machine.table(*opcode).is_none())
}

/// The resource-constrained lower bound of a loop's initiation interval on a machine, in cycles, 1 to
/// 2,048: [`res_mii_of`](unit_bound::res_mii_of) its operations, in text order.
///
/// # Errors
/// [`GraphFault::NoTable`] for the first statement whose opcode the machine has no table for. No
/// memory is taken.
pub fn res_mii(machine: &Machine, innermost: &Loop) -> Result<u64, GraphFault>
    ensures exact { TablesAnswer (first_without_table machine.now innermost.now) (IsUnitBound (operations_of machine.now innermost.now)) result }
    ensures below { IfOk result (IsBelowLawful (operations_of machine.now innermost.now)) }
    ensures from_one { IfOk result (λ bound. 1 ≤ bound) }
    ensures range { IfOk result (λ bound. bound ≤ 2048) }
    ensures no_memory { IfErr result (λ fault. fault ≢ GraphFault.Memory) }
{
    if let Some(opcode) = missing_table(machine, innermost) {
        return Err(GraphFault::NoTable(opcode));
    }
    prove!(innermost.statements().len() <= MAX_STATEMENTS);
    Ok(bound_of(&OfLoop { machine, innermost }))
}
