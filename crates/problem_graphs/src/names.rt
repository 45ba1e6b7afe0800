//! What values and the kinds of operations are called.

ghost use Rattle.std.specs.Prelude.{◌≡◌, ◌<◌, ◌++◌, length, OnOk};
ghost use Rattle.problem_graphs.specs.Names.{kind_name, kind_of};
ghost use Rattle.solution_text.specs.Names.{value_name};

use machine_data::OutOfMemory;
use problems::Draft;
use solution_text::push_name;

/// Appends what a value is called.
pub(crate) fn push_value_name(
    text: &mut Vec<u8>,
    draft: &Draft,
    value: usize,
) -> Result<(), OutOfMemory>
    ensures ok { OnOk result (text.new.items ≡ text.old.items ++ value_name draft.now value) }
{
    push_name(text, draft.names.values.as_slice(), value)
}

/// The number of an operation's kind.
pub(crate) fn kind_of(draft: &Draft, op: usize) -> usize
    requires { op < length draft.now.operations.items }
    ensures { result ≡ kind_of draft.now op }
{
    draft.operations[op]
}

/// Appends what an operation's kind is called.
pub(crate) fn push_kind_name(
    text: &mut Vec<u8>,
    draft: &Draft,
    op: usize,
) -> Result<(), OutOfMemory>
    requires { op < length draft.now.operations.items }
    ensures ok { OnOk result (text.new.items ≡ text.old.items ++ kind_name draft.now op) }
{
    push_name(text, draft.names.kinds.as_slice(), kind_of(draft, op))
}
