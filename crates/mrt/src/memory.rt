//! Memory that is used again.

ghost use Rattle.std.specs.Prelude.{◌≡◌, [], replicate, OnOk, OnErr};

use machine_data::OutOfMemory;

/// Makes `list` hold `count` copies of `value` and nothing else. It takes memory only where the list has
/// too little.
pub(crate) fn refill<T: Copy + Drop>(
    list: &mut Vec<T>,
    count: usize,
    value: T,
) -> Result<(), OutOfMemory>
    ensures ok { OnOk result (list.new.items ≡ replicate count value) }
    ensures err { OnErr result (list.new.items ≡ []) }
{
    list.clear();
    list.resize(count, value)
}
