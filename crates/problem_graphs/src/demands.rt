//! The edges that reads and orders come to.

ghost use Rattle.std.specs.Prelude.{◌≡◌, ◌≤◌};
ghost use Rattle.machine_data.specs.declared.limits.TheConstants.{MAX_STATEMENTS};
ghost use Rattle.problems.specs.Drafts.{IsOrder, IsRead, IsWellFormed, order_edge, read_edge};

use edges::Edge;
use problems::{Draft, Order};
use registers::Read;

/// The edge of a read: its reader waits for its value to land.
pub fn read_edge(draft: &Draft, read: Read) -> Edge
    requires well_formed { IsWellFormed draft.now }
    requires read { IsRead draft.now read }
    ensures { result ≡ read_edge draft.now read }
{
    let value = draft.values[read.value];
    Edge {
        from: value.maker as u8,
        to: read.reader as u8,
        distance: read.distance as u8,
        delay: value.lands as i8 - read.offset as i8,
    }
}

/// The edge of an order.
pub(crate) fn order_edge(operations: usize, order: Order) -> Edge
    requires few { operations ≤ MAX_STATEMENTS }
    requires order { IsOrder operations order }
    ensures { result ≡ order_edge order }
{
    Edge {
        from: order.from as u8,
        to: order.to as u8,
        distance: order.distance as u8,
        delay: order.delay as i8,
    }
}
