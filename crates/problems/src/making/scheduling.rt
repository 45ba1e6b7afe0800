//! What is scheduled of a draft.

ghost use Rattle.std.specs.Prelude.{◌≡◌, ◌≤◌, IfOk};
ghost use Rattle.edges.specs.Graphs.{IsGraphWith};
ghost use Rattle.problems.specs.Drafts.{IsWellFormed, edges_of, latencies_of, operations_of};
ghost use Rattle.problems.specs.Problems.{IsSchedulingOf};
ghost use Rattle.problems.specs.inner.Listed.{AreListed};
ghost use Rattle.machine_data.specs.declared.limits.TheConstants.{MAX_CEILING, MAX_RATIO};

use crate::draft::Draft;
use crate::making::edge_list::edges_of;
use crate::making::tables::{Tables, latencies_of, operations_of};
use edges::Edges;
use machine_data::OutOfMemory;
use std::alloc::Global;

/// The graph of a draft's edges.
fn graph_of(alloc: Global, draft: &Draft) -> Result<Edges, OutOfMemory>
    requires { IsWellFormed draft.now }
    ensures { IfOk result (IsGraphWith (edges_of draft.now) (latencies_of draft.now)) }
{
    let edges = edges_of(alloc, draft)?;
    let cycles = latencies_of(alloc, draft)?;
    match edges::given(alloc, edges.as_slice(), cycles)? {
        Some(graph) => Ok(graph),
        None => unreachable!(),
    }
}

/// What is scheduled of a draft, with this budget ratio and ceiling; `tables` has the alternatives of its operations.
pub(crate) fn scheduling_of(
    alloc: Global,
    draft: &Draft,
    tables: &Tables,
    ratio: u64,
    ceiling: u64,
) -> Result<schedules::Problem, OutOfMemory>
    requires well_formed { IsWellFormed draft.now }
    requires tables { AreListed tables.now.lists.items tables.now.numbers.items (operations_of draft.now) }
    requires ratio { (1 ≤ ratio) × (ratio ≤ MAX_RATIO) }
    requires ceiling { ceiling ≤ MAX_CEILING }
    ensures { IfOk result (λ made. IsSchedulingOf draft.now made × (made.ratio ≡ ratio) × (made.ceiling ≡ ceiling)) }
{
    let operations = operations_of(alloc, tables)?;
    let graph = graph_of(alloc, draft)?;
    schedules::Problem::new(alloc, graph, operations, ratio, ceiling)
}
