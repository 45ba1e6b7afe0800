//! The line of the fullest set of units.

ghost use Rattle.std.specs.Prelude.{◌≡◌, ◌<◌, ◌++◌, OnOk};
ghost use Rattle.machine_data.specs.declared.limits.TheConstants.{MAX_UNITS};
ghost use Rattle.reason_lines.specs.SetLines.{counts_text, member_text, members_text, set_line};

use crate::unit_names::UnitNames;
use machine_data::OutOfMemory;
use unit_sets::UnitSet;
use writing::{Text, push_told};

/// Appends the name of a unit after a blank, if it is one of the set.
fn push_member<N: UnitNames>(
    text: &mut Vec<u8>,
    units: &N,
    set: &UnitSet,
    unit: usize,
) -> Result<(), OutOfMemory>
    requires there { unit < N.number units.now }
    requires few { unit < MAX_UNITS }
    ensures ok { OnOk result (text.new.items ≡ text.old.items ++ member_text (N.name units.now) set.now unit) }
{
    if !set.has(unit as u8) {
        return Ok(());
    }
    text.push_piece(" ")?;
    units.push_name(text, unit)
}

/// Appends the names of the units of the set, in order.
fn push_members<N: UnitNames>(
    text: &mut Vec<u8>,
    units: &N,
    set: &UnitSet,
) -> Result<(), OutOfMemory>
    ensures ok { OnOk result (text.new.items ≡ text.old.items ++ members_text (N.name units.now) (N.number units.now) set.now) }
{
    for unit in 0..units.count() {
        push_member(text, units, set, unit)?;
    }
    Ok(())
}

/// Appends how many rows the units of a set take, for how many units, and how many cycles they need.
fn push_counts(text: &mut Vec<u8>, set: &UnitSet) -> Result<(), OutOfMemory>
    ensures ok { OnOk result (text.new.items ≡ text.old.items ++ counts_text set.now) }
{
    push_told(text, " take ", u64::from(set.rows))?;
    push_told(text, " rows: ", u64::from(set.rows))?;
    push_told(text, "/", u64::from(set.size))?;
    push_told(text, " cycles, need ", u64::from(set.need))
}

/// Appends the line of the fullest set of units: `units U V .. take R rows: R/U cycles, need K`, with the names of the set's units in their order,
/// how many rows of them each iteration takes at least, these over the number of the units, and how many whole cycles that is: the set's need.
///
/// # Errors
/// Memory ran out. The text is left with a part of that.
pub fn push_set_line<N: UnitNames>(
    text: &mut Vec<u8>,
    units: &N,
    set: &UnitSet,
) -> Result<(), OutOfMemory>
    ensures ok { OnOk result (text.new.items ≡ text.old.items ++ set_line (N.name units.now) (N.number units.now) set.now) }
{
    text.push_piece("units")?;
    push_members(text, units, set)?;
    push_counts(text, set)?;
    text.push_piece("\n")
}
