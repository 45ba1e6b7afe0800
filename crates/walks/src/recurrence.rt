//! The recurrence-constrained lower bound of the initiation interval.

ghost use Rattle.std.specs.Prelude.{◌≡◌, ◌⊎◌, ◌-◌, ◌*◌, ◌≤◌, length, max, true, IfOk, IsOk};
ghost use Rattle.edges.specs.Graphs.{IsGraph};
ghost use Rattle.walks.specs.Walks.{FitsCircuits, Exceeds, IsRecurrenceBound};
ghost use Rattle.walks.specs.Rounds.{TellsFeasible};
ghost use Rattle.machine_data.specs.declared.limits.TheConstants.{MAX_INTERVAL};

use crate::relaxation::{Relaxed, longer_interval, relax};
use edges::Edges;
use machine_data::OutOfMemory;
use machine_data::limits::MAX_STATEMENTS;
use std::alloc::Global;

/// Whether an interval, in cycles, is at or above the recurrence-constrained lower bound: whether no
/// circuit of the edges takes more cycles than it has intervals.
///
/// # Errors
/// None: no memory is taken.
pub fn feasible(_alloc: Global, edges: &Edges, ii: u64) -> Result<bool, OutOfMemory>
    requires from_one { 1 ≤ ii }
    requires limit { ii ≤ MAX_INTERVAL }
    ensures exact { IfOk result (λ answer. TellsFeasible edges.now.edges ii answer) }
    ensures fits { IfOk result (λ answer. answer ≡ true → FitsCircuits edges.now.edges ii) }
    ensures no_memory { IsOk result }
{
    let mut numbers = [0; MAX_STATEMENTS];
    match relax(edges, ii, &mut numbers) {
        Relaxed::Heights => Ok(true),
        Relaxed::Above(_) => Ok(false),
    }
}

/// The least interval, from 1, that each edge of an operation on itself fits.
fn interval_of_self_edges(edges: &Edges) -> u64
    ensures from_one { 1 ≤ result }
    ensures asked_for { (result ≡ 1) ⊎ Exceeds edges.now.edges (result - 1) }
    ensures well_formed { IsGraph edges.now }
{
    let mut interval = 1;
    for edge in edges.all() {
        if edge.from == edge.to
            && let Some(longer) = longer_interval(
                i64::from(edge.delay),
                u64::from(edge.distance),
                interval,
            )
        {
            interval = longer;
        }
    }
    interval
}

/// The recurrence-constrained lower bound of the initiation interval, in cycles: RecMII of B. R. Rau,
/// "Iterative Modulo Scheduling", HPL-94-115. It is at least 1 and at most 64 for each operation.
///
/// It is the least interval, from 1, at which no circuit of the edges takes more cycles than it has
/// intervals. While some circuit does not fit the interval, it is raised to the least one that such a
/// circuit fits: each interval on the way is one that some circuit needs.
///
/// # Errors
/// None: no memory is taken.
pub fn rec_mii(_alloc: Global, edges: &Edges) -> Result<u64, OutOfMemory>
    ensures exact { IfOk result (λ bound. IsRecurrenceBound edges.now.edges bound) }
    ensures range { IfOk result (λ bound. bound ≤ 64 * length edges.now.latencies) }
    ensures no_memory { IsOk result }
{
    let mut interval = interval_of_self_edges(edges);
    let mut numbers = [0; MAX_STATEMENTS];
    loop {
        match relax(edges, interval, &mut numbers) {
            Relaxed::Heights => return Ok(interval),
            Relaxed::Above(longer) => interval = longer,
        }
    }
}

/// The lower bound of the initiation interval, in cycles: the greater of the resource-constrained and
/// the recurrence-constrained one.
pub fn mii(resources: u64, recurrences: u64) -> u64
    ensures { result ≡ max resources recurrences }
{
    resources.max(recurrences)
}
