//! The head of a graph, and the lines of operations.

ghost use Rattle.std.specs.Prelude.{◌≡◌, ◌<◌, ◌++◌, length, OnOk};
ghost use Rattle.std.specs.List.{flat_map, range_with_len};
ghost use Rattle.problem_graphs.specs.Nodes.{node_line, node_start, title};

use crate::escapes::{push_escaped, push_escaped_name};
use crate::heads::push_bounds;
use crate::names::kind_of;
use machine_data::OutOfMemory;
use problems::Draft;
use writing::{Text, push_told};

/// Appends the name of a graph, and its label up to the bounds.
pub(crate) fn push_title(
    text: &mut Vec<u8>,
    name: &str,
    scheduling: &schedules::Problem,
) -> Result<(), OutOfMemory>
    ensures ok { OnOk result (text.new.items ≡ text.old.items ++ title name.now scheduling.now) }
{
    text.push_piece("digraph \"")?;
    push_escaped(text, name)?;
    text.push_piece("\" {\n  label=\"")?;
    push_escaped(text, name)?;
    push_bounds(text, scheduling)
}

/// Appends what the line of an operation has up to its kind: `  K [label="NAME KIND`.
pub(crate) fn push_start(text: &mut Vec<u8>, draft: &Draft, op: usize) -> Result<(), OutOfMemory>
    requires { op < length draft.now.operations.items }
    ensures ok { OnOk result (text.new.items ≡ text.old.items ++ node_start draft.now op) }
{
    push_told(text, "  ", op as u64)?;
    text.push_piece(" [label=\"")?;
    push_escaped_name(text, draft.names.operations.as_slice(), op)?;
    text.push_piece(" ")?;
    push_escaped_name(text, draft.names.kinds.as_slice(), kind_of(draft, op))
}

/// Appends the line of an operation.
fn push_node(text: &mut Vec<u8>, draft: &Draft, op: usize) -> Result<(), OutOfMemory>
    requires { op < length draft.now.operations.items }
    ensures ok { OnOk result (text.new.items ≡ text.old.items ++ node_line draft.now op) }
{
    push_start(text, draft, op)?;
    text.push_piece("\"]\n")
}

/// Appends the lines of the operations.
pub(crate) fn push_nodes(text: &mut Vec<u8>, draft: &Draft) -> Result<(), OutOfMemory>
    ensures ok { OnOk result (text.new.items ≡ text.old.items ++ flat_map (node_line draft.now) (range_with_len 0 (length draft.now.operations.items))) }
{
    for op in 0..draft.operations.len() {
        push_node(text, draft, op)?;
    }
    Ok(())
}
