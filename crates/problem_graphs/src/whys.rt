//! Why one operation waits for another one.

ghost use Rattle.std.specs.Prelude.{◌≡◌, ◌++◌, OnOk};
ghost use Rattle.problem_graphs.specs.Arrows.{why_label};
ghost use Rattle.problem_graphs.specs.Whys.{why_text};

use crate::escapes::push_escaped_name;
use crate::names::push_value_name;
use machine_data::OutOfMemory;
use problems::Draft;
use writing::Text;

/// Why one operation waits for another one.
#[derive(Clone, Copy, PartialEq, Eq)]
pub enum Why {
    /// It reads the value with this number, from 0, which the other one makes.
    Value(usize),
    /// An order says so.
    Order,
}

/// Appends why an operation waits.
pub(crate) fn push_why(text: &mut Vec<u8>, draft: &Draft, why: Why) -> Result<(), OutOfMemory>
    ensures ok { OnOk result (text.new.items ≡ text.old.items ++ why_text draft.now why) }
{
    match why {
        Why::Value(value) => {
            text.push_piece("value ")?;
            push_value_name(text, draft, value)
        }
        Why::Order => text.push_piece("order"),
    }
}

/// Appends the same between quotes.
pub(crate) fn push_why_label(text: &mut Vec<u8>, draft: &Draft, why: Why) -> Result<(), OutOfMemory>
    ensures ok { OnOk result (text.new.items ≡ text.old.items ++ why_label draft.now why) }
{
    match why {
        Why::Value(value) => {
            text.push_piece("value ")?;
            push_escaped_name(text, draft.names.values.as_slice(), value)
        }
        Why::Order => text.push_piece("order"),
    }
}
