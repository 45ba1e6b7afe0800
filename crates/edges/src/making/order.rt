//! Edges in order.

ghost use Rattle.std.specs.Prelude.{◌<◌, ◌≤◌, IfOk};
ghost use Rattle.std.specs.List.{All, AllPairs, Contains};
ghost use Rattle.edges.specs.Edges.{EdgeData, Precedes};
ghost use Rattle.machine_data.specs.declared.limits.TheConstants.{MAX_STATEMENTS};

use crate::edge::Edge;
use crate::layout::groups::by_end;
use crate::layout::starts::End;
use machine_data::OutOfMemory;
use std::alloc::Global;

/// The same edges, ascending and each once. The edges to each operation stand together, so those from each
/// are nearly in order, which a sort is quick to find.
///
/// # Errors
/// [`OutOfMemory`] where memory ran out.
pub fn in_order(alloc: Global, list: &[Edge], operations: usize) -> Result<Vec<Edge>, OutOfMemory>
    requires few { operations ≤ MAX_STATEMENTS }
    requires ends { All (λ (e : EdgeData). e.from < operations) list.now }
    ensures ascending { IfOk result (λ v. AllPairs Precedes v.items) }
    ensures kept { IfOk result (λ v. (e : EdgeData) → Contains list.now e → Contains v.items e) }
    ensures no_more { IfOk result (λ v. (e : EdgeData) → Contains v.items e → Contains list.now e) }
{
    let mut ordered = by_end(alloc, list, End::Source, operations)?;
    ordered.sort()?;
    ordered.dedup();
    Ok(ordered)
}
