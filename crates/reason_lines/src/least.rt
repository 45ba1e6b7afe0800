//! Whether an interval is the least that is possible, and the line that says so.

ghost use Rattle.std.specs.Prelude.{◌≡◌, ◌++◌, OnOk};
ghost use Rattle.reason_lines.specs.Least.{is_least_possible, least_line};

use machine_data::OutOfMemory;
use writing::Text;

/// Whether an interval is what the fullest set of units, which needs `need` cycles, or the recurrences need, which is `recurrences` cycles.
/// All are in cycles.
pub fn is_least_possible(need: u16, recurrences: u64, interval: u64) -> bool
    ensures { result ≡ is_least_possible need recurrences interval }
{
    u64::from(need).max(recurrences) == interval
}

/// Appends the line `least possible`, that no shorter interval is possible, if that is so.
///
/// # Errors
/// Memory ran out. The text is left with a part of that, or as it was.
pub fn push_least(text: &mut Vec<u8>, least: bool) -> Result<(), OutOfMemory>
    ensures ok { OnOk result (text.new.items ≡ text.old.items ++ least_line least) }
{
    if !least {
        return Ok(());
    }
    text.push_piece("least possible\n")
}
