//! Names of loops that are put together.

ghost use Rattle.std.specs.Prelude.{◌≡◌, ◌↔◌, ◌||◌, ℕ, List, IfOk, IsTrue, OnOk, not};
ghost use Rattle.machine_data.specs.Opcodes.{same_word};
ghost use Rattle.workers.specs.inner.Pieces.{NamesDiffer, has_name};

use machine_data::{Name, OutOfMemory};
use std::alloc::Global;
use std::collections::BTreeMap;

/// Whether no two of these names are one.
pub(crate) fn names_differ(alloc: Global, names: &[Name]) -> Result<bool, OutOfMemory>
    ensures { IfOk result (λ differ. IsTrue differ ↔ NamesDiffer names.now) }
{
    let mut known = BTreeMap::new(alloc);
    for name in names {
        match add_name(&mut known, name.as_str().as_bytes()) {
            Ok(true) => {}
            Ok(false) => return Ok(false),
            Err(fault) => return Err(fault),
        }
    }
    Ok(true)
}

/// Adds a name. The result is whether it was not there.
fn add_name<'a>(names: &mut BTreeMap<&'a [u8], ()>, name: &'a [u8]) -> Result<bool, OutOfMemory>
    ensures new { IfOk result (λ added. added ≡ not (has_name names.old name.now)) }
    ensures names { OnOk result ((q : List ℕ) → has_name names.new q ≡ (has_name names.old q || same_word q name.now)) }
{
    let earlier = names.insert(name, ())?;
    Ok(earlier.is_none())
}
