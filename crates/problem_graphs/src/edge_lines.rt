//! The text of the edges of a problem.

ghost use Rattle.std.specs.Prelude.{◌≡◌, ◌<◌, ◌≤◌, ◌++◌, ℕ, List, length, IfOk, OnOk};
ghost use Rattle.std.specs.List.{flat_map};
ghost use Rattle.machine_data.specs.declared.limits.TheConstants.{MAX_STATEMENTS};
ghost use Rattle.walks.specs.Walks.{AreHeights};
ghost use Rattle.schedules.specs.Problems.{mii_of};
ghost use Rattle.problems.specs.Drafts.{IsOrder, IsRead, IsWellFormed};
ghost use Rattle.problem_graphs.specs.Edges.{IsEdgesText, edge_line, edge_lines, numbered, op_line, op_lines, order_line, read_line};

use crate::demands::{order_edge, read_edge};
use crate::heads::push_problem_line;
use crate::names::push_kind_name;
use crate::whys::{Why, push_why};
use edges::Edge;
use graph_text::push_sums;
use machine_data::OutOfMemory;
use problems::{Draft, Order, Problem};
use registers::Read;
use solution_text::push_op_name;
use std::alloc::Global;
use walks::{heights, longer_intervals_fit};
use writing::{Text, push_told};

/// Appends a word, the number of an operation, and what it is called.
fn push_numbered(
    text: &mut Vec<u8>,
    word: &str,
    draft: &Draft,
    op: usize,
) -> Result<(), OutOfMemory>
    ensures ok { OnOk result (text.new.items ≡ text.old.items ++ numbered word.now draft.now op) }
{
    push_told(text, word, op as u64)?;
    text.push_piece(" ")?;
    push_op_name(text, draft, op)
}

/// Appends the line of an operation; `heights` has the height of each.
fn push_op(
    text: &mut Vec<u8>,
    problem: &Problem,
    heights: &[u64],
    op: usize,
) -> Result<(), OutOfMemory>
    requires there { op < length problem.now.draft.operations.items }
    requires each { length heights.now ≡ length problem.now.draft.operations.items }
    ensures ok { OnOk result (text.new.items ≡ text.old.items ++ op_line problem.now heights.now op) }
{
    let draft = problem.draft();
    push_numbered(text, "op ", draft, op)?;
    text.push_piece(" ")?;
    push_kind_name(text, draft, op)?;
    let latency = problem.scheduling().edges().latency(op);
    push_told(text, " latency ", u64::from(latency))?;
    push_told(text, " height ", heights[op])?;
    text.push_piece("\n")
}

/// Appends the lines of all operations.
fn push_ops(text: &mut Vec<u8>, problem: &Problem, heights: &[u64]) -> Result<(), OutOfMemory>
    requires { length heights.now ≡ length problem.now.draft.operations.items }
    ensures ok { OnOk result (text.new.items ≡ text.old.items ++ op_lines problem.now heights.now) }
{
    for op in 0..problem.draft().operations.len() {
        push_op(text, problem, heights, op)?;
    }
    Ok(())
}

/// Appends the line of an edge with why its second operation waits, `edge P NAME Q NAME WHY delay D distance N`: the numbers of
/// both operations with what they are called, the delay in cycles and the distance in iterations.
///
/// # Errors
/// [`OutOfMemory`] where memory ran out. The text is left with a part of the line.
pub fn push_edge(text: &mut Vec<u8>, draft: &Draft, edge: Edge, why: Why) -> Result<(), OutOfMemory>
    ensures ok { OnOk result (text.new.items ≡ text.old.items ++ edge_line draft.now edge why) }
{
    push_numbered(text, "edge ", draft, usize::from(edge.from))?;
    push_numbered(text, " ", draft, usize::from(edge.to))?;
    text.push_piece(" ")?;
    push_why(text, draft, why)?;
    push_sums(text, i64::from(edge.delay), u64::from(edge.distance))?;
    text.push_piece("\n")
}

/// Appends the line of a read.
fn push_read(text: &mut Vec<u8>, draft: &Draft, read: Read) -> Result<(), OutOfMemory>
    requires well_formed { IsWellFormed draft.now }
    requires read { IsRead draft.now read }
    ensures ok { OnOk result (text.new.items ≡ text.old.items ++ read_line draft.now read) }
{
    push_edge(text, draft, read_edge(draft, read), Why::Value(read.value))
}

/// Appends the lines of all reads.
fn push_reads(text: &mut Vec<u8>, draft: &Draft) -> Result<(), OutOfMemory>
    requires { IsWellFormed draft.now }
    ensures ok { OnOk result (text.new.items ≡ text.old.items ++ flat_map (read_line draft.now) draft.now.reads.items) }
{
    for read in draft.reads.as_slice() {
        push_read(text, draft, *read)?;
    }
    Ok(())
}

/// Appends the line of an order.
fn push_order(text: &mut Vec<u8>, draft: &Draft, order: Order) -> Result<(), OutOfMemory>
    requires few { length draft.now.operations.items ≤ MAX_STATEMENTS }
    requires order { IsOrder (length draft.now.operations.items) order }
    ensures ok { OnOk result (text.new.items ≡ text.old.items ++ order_line draft.now order) }
{
    let edge = order_edge(draft.operations.len(), order);
    push_edge(text, draft, edge, Why::Order)
}

/// Appends the lines of all orders.
fn push_orders(text: &mut Vec<u8>, draft: &Draft) -> Result<(), OutOfMemory>
    requires { IsWellFormed draft.now }
    ensures ok { OnOk result (text.new.items ≡ text.old.items ++ flat_map (order_line draft.now) draft.now.orders.items) }
{
    for order in draft.orders.as_slice() {
        push_order(text, draft, *order)?;
    }
    Ok(())
}

/// The height of each operation at the lower bound of the interval, in cycles.
fn heights_of(alloc: Global, problem: &Problem) -> Result<Vec<u64>, OutOfMemory>
    ensures each { IfOk result (λ heights. length heights.items ≡ length problem.now.draft.operations.items) }
    ensures exact { IfOk result (λ heights. AreHeights problem.now.scheduling.graph (mii_of problem.now.scheduling) heights.items) }
{
    let scheduling = problem.scheduling();
    longer_intervals_fit();
    heights(alloc, scheduling.edges(), scheduling.mii())
}

/// Appends the edges of a problem as text: its [line of bounds](crate::push_problem_line); a line for each operation, `op K NAME
/// KIND latency L height H`, with its number, what it and its kind are called, its latency and its height at the lower bound of
/// the interval, in cycles; and a line for each read and, after these, for each order, `edge P NAME Q NAME WHY delay D distance N`,
/// with the operation that comes first, the one that waits for it, why it waits (`value V` of a read of the value `V`, and
/// `order`), the delay in cycles and the distance in iterations. A part that has no name is told by its number.
///
/// # Errors
/// [`OutOfMemory`] where memory ran out. The text is left with a part of all that.
pub fn push_edges(
    alloc: Global,
    text: &mut Vec<u8>,
    name: &str,
    problem: &Problem,
) -> Result<(), OutOfMemory>
    ensures ok { OnOk result ((part : List ℕ) × IsEdgesText name.now problem.now part × (text.new.items ≡ text.old.items ++ part)) }
{
    let heights = heights_of(alloc, problem)?;
    push_problem_line(text, name, problem)?;
    push_ops(text, problem, heights.as_slice())?;
    push_reads(text, problem.draft())?;
    push_orders(text, problem.draft())
}
