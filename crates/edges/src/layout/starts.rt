//! Where the edges of each operation begin in a list that is sorted by operation.

ghost use Rattle.std.specs.Prelude.{◌≡◌, ◌+◌, ◌<◌, ◌≤◌, IfOk};
ghost use Rattle.std.specs.List.Sorted.{IsNonDecreasingBy};
ghost use Rattle.edges.specs.inner.Layout.{operation_at, AreStarts};
ghost use Rattle.machine_data.specs.declared.limits.TheConstants.{MAX_STATEMENTS};

use crate::edge::Edge;
use machine_data::OutOfMemory;
use std::alloc::Global;

/// One of the two operations of an edge.
#[derive(Clone, Copy)]
pub(crate) enum End {
    Source,
    Target,
}

impl End {
    /// The number of that operation.
    #[inline]
    pub(crate) fn of(self, edge: Edge) -> usize
        ensures { result ≡ operation_at self edge }
    {
        match self {
            End::Source => edge.from as usize,
            End::Target => edge.to as usize,
        }
    }
}

/// For each of `operations` operations, and for the one after them, the place where its edges begin.
pub(crate) fn starts(
    alloc: Global,
    list: &[Edge],
    end: End,
    operations: usize,
) -> Result<Vec<usize>, OutOfMemory>
    requires few { operations ≤ MAX_STATEMENTS }
    requires sorted { IsNonDecreasingBy (operation_at end) list.now }
    ensures { IfOk result (λ v. AreStarts end list.now operations v.items) }
{
    let mut starts = Vec::with_capacity(alloc, operations + 1)?;
    let mut next = 0;
    for operation in 0..operations + 1 {
        while next < list.len() && end.of(list[next]) < operation {
            next += 1;
        }
        starts.push(next)?;
    }
    Ok(starts)
}
