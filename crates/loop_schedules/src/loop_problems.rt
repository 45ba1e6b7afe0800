//! What is to be scheduled of loops.

ghost use Rattle.std.specs.Prelude.{◌≡◌, ◌≤◌};
ghost use Rattle.graph.specs.TablesAnswer.{TablesAnswer};
ghost use Rattle.graph.specs.Units.{first_without_table};
ghost use Rattle.loop_schedules.specs.Problems.{IsProblemOf, with_loop};
ghost use Rattle.machine_data.specs.declared.limits.TheConstants.{MAX_CEILING, MAX_RATIO};

use crate::offers::offers;
use graph::GraphFault;
use loop_data::Loop;
use machine_data::Machine;
use schedules::Problem;
use std::alloc::Global;

/// What is to be scheduled of a loop on a machine: all that [`Prepared::new`](crate::Prepared::new) finds, with the same
/// limits. The loop is borrowed, so that several threads can find it for the loops of one list;
/// [`Prepared::of`](crate::Prepared::of) joins both.
///
/// # Errors
/// [`GraphFault::NoTable`] for the first statement whose opcode the machine has no table for, and
/// [`GraphFault::Memory`] where memory ran out.
pub fn loop_problem(
    alloc: Global,
    machine: &Machine,
    innermost: &Loop,
    ratio: u64,
    ceiling: u64,
) -> Result<Problem, GraphFault>
    requires ratio { (1 ≤ ratio) × (ratio ≤ MAX_RATIO) }
    requires ceiling { ceiling ≤ MAX_CEILING }
    ensures exact { TablesAnswer (first_without_table machine.now innermost.now)
        (λ problem. IsProblemOf machine.now innermost.now ratio ceiling (with_loop innermost.now machine.now.registers problem)) result }
{
    prove!(machine.registers() >= 1);
    let edges = graph::edges(alloc, machine, innermost)?;
    let offered = offers(alloc, machine, innermost)?;
    let (list, kinds) = (offered.alternatives, offered.kinds);
    let problem = Problem::of_kinds(alloc, edges, list, kinds, ratio, ceiling)?;
    Ok(problem)
}
