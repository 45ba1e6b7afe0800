//! Whether an interval is the least that is possible.

ghost use Rattle.std.specs.Prelude.{◌≡◌};
ghost use Rattle.told_choices.specs.Least.{is_least_possible};

use loop_schedules::Prepared;

/// Whether an interval, in cycles, is what the fullest set of units, which needs `need` cycles, or the recurrences need.
pub fn is_least_possible(prepared: &Prepared, need: u16, interval: u64) -> bool
    ensures { result ≡ is_least_possible prepared.now need interval }
{
    u64::from(need).max(prepared.recurrences()) == interval
}
