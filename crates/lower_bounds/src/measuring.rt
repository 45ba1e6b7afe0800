//! The dependences of a loop on a machine, and its lower bounds.

ghost use Rattle.std.specs.Prelude.{◌≤◌, IfOk};
ghost use Rattle.lower_bounds.specs.Bounds.{IsMeasured};
ghost use Rattle.lower_bounds.specs.Faults.{TextAnswers, lacking_in};
ghost use Rattle.lower_bounds.specs.declared.measuring.Measured.{Measured};

use crate::fault::{TextFault, fault_of};
use edges::Edges;
use graph::{edges, res_mii};
use loop_data::Loop;
use machine_data::Machine;
use std::alloc::Global;
use walks::rec_mii;

/// The lower bounds of a loop's initiation interval, in cycles.
#[derive(Clone, Copy)]
pub struct LowerBounds {
    /// By the units of the machine, at most 2,048.
    pub resources: u64,
    /// By the recurrences of the loop, at most 8,192.
    pub recurrences: u64,
}

/// The dependences of a loop on a machine, and the lower bounds of its initiation interval.
#[derive(Drop)]
pub struct Measured {
    pub bounds: LowerBounds,
    pub graph: Edges,
}

/// The dependences of a loop on a machine, and the lower bounds of its initiation interval.
///
/// # Errors
/// [`TextFault::NoTable`] for the first statement whose opcode the machine has no table for, and
/// [`TextFault::Memory`] where memory ran out.
pub fn measure(alloc: Global, machine: &Machine, innermost: &Loop) -> Result<Measured, TextFault>
    ensures exact { TextAnswers (lacking_in machine.now innermost.now) (λ (m : Measured). IsMeasured machine.now innermost.now m.bounds m.graph) result }
    ensures units { IfOk result (λ m. m.bounds.resources ≤ 2048) }
    ensures recurrences { IfOk result (λ m. m.bounds.recurrences ≤ 8192) }
{
    let resources = match res_mii(machine, innermost) {
        Ok(resources) => resources,
        Err(fault) => return Err(fault_of(fault, innermost)),
    };
    let graph = match edges(alloc, machine, innermost) {
        Ok(graph) => graph,
        Err(fault) => return Err(fault_of(fault, innermost)),
    };
    let recurrences = rec_mii(alloc, &graph)?;
    Ok(Measured {
        bounds: LowerBounds {
            resources,
            recurrences,
        },
        graph,
    })
}
