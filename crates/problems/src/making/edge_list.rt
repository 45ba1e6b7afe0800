//! The edges that the reads and the orders of a draft come to.

ghost use Rattle.std.specs.Prelude.{◌≡◌, ◌≤◌, ◌++◌, map, IfOk};
ghost use Rattle.problems.specs.Drafts.{IsWellFormed, IsRead, IsOrder, read_edge, order_edge, edges_of};
ghost use Rattle.machine_data.specs.declared.limits.TheConstants.{MAX_STATEMENTS};

use crate::draft::{Draft, Order};
use edges::Edge;
use machine_data::OutOfMemory;
use registers::Read;
use std::alloc::Global;

/// The edge of a read: it waits for its value to land.
fn read_edge(draft: &Draft, read: &Read) -> Edge
    requires well_formed { IsWellFormed draft.now }
    requires read { IsRead draft.now read.now }
    ensures { result ≡ read_edge draft.now read.now }
{
    let value = draft.values[read.value];
    Edge {
        from: value.maker as u8,
        to: read.reader as u8,
        distance: read.distance as u8,
        delay: value.lands as i8 - read.offset as i8,
    }
}

/// The edge of an order.
fn order_edge(operations: usize, order: &Order) -> Edge
    requires few { operations ≤ MAX_STATEMENTS }
    requires order { IsOrder operations order.now }
    ensures { result ≡ order_edge order.now }
{
    Edge {
        from: order.from as u8,
        to: order.to as u8,
        distance: order.distance as u8,
        delay: order.delay as i8,
    }
}

/// Appends the edges of the reads, in their order.
fn push_reads(draft: &Draft, edges: &mut Vec<Edge>) -> Result<(), OutOfMemory>
    requires { IsWellFormed draft.now }
    ensures { IfOk result (λ _. edges.new.items ≡ edges.old.items ++ map (read_edge draft.now) draft.now.reads.items) }
{
    for read in draft.reads.as_slice() {
        edges.push(read_edge(draft, read))?;
    }
    Ok(())
}

/// Appends the edges of the orders, in their order.
fn push_orders(draft: &Draft, edges: &mut Vec<Edge>) -> Result<(), OutOfMemory>
    requires { IsWellFormed draft.now }
    ensures { IfOk result (λ _. edges.new.items ≡ edges.old.items ++ map order_edge draft.now.orders.items) }
{
    for order in draft.orders.as_slice() {
        edges.push(order_edge(draft.operations.len(), order))?;
    }
    Ok(())
}

/// The edges of the reads, and after them those of the orders.
pub(crate) fn edges_of(alloc: Global, draft: &Draft) -> Result<Vec<Edge>, OutOfMemory>
    requires { IsWellFormed draft.now }
    ensures { IfOk result (λ edges. edges.items ≡ edges_of draft.now) }
{
    let mut edges = Vec::with_capacity(alloc, draft.reads.len() + draft.orders.len())?;
    push_reads(draft, &mut edges)?;
    push_orders(draft, &mut edges)?;
    Ok(edges)
}
