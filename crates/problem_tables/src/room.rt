//! Lists that grow item by item.

ghost use Rattle.std.specs.Prelude.{◌≡◌, [], ◌∷◌, ◌++◌, None, OnOk, OnErr};
ghost use Rattle.problem_tables.specs.Seen.{Refuses};

use crate::fault::Refusal;

/// For how many items a list has room from its first one on: most problems have about as many of each part.
const ROOM: usize = 16;

/// Pushes an item.
#[inline]
pub(crate) fn push_with_room<T>(items: &mut Vec<T>, item: T) -> Result<(), Refusal>
where
    T: Drop,
    ensures fault { Refuses result None }
    ensures ok { OnOk result (items.new.items ≡ items.old.items ++ item ∷ []) }
    ensures err { OnErr result (items.new.items ≡ items.old.items) }
{
    if items.is_empty() {
        items.reserve(ROOM)?;
    }
    items.push(item)?;
    Ok(())
}
