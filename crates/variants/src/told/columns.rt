//! What the loops of a file have in all on a variant of the machine, which is told by its number among all variants.

ghost use Rattle.std.specs.Prelude.{◌≡◌, ◌<◌, ◌^◌, is_some, count_by};
ghost use Rattle.std.specs.List.{list_any};
ghost use Rattle.variants.specs.Totals.{cycles, is_longer};
ghost use Rattle.variants.specs.inner.Columns.{failed_at, interval_at, is_concerned, is_past, longer_at, own_failed, own_interval, own_sum, shorter_at, sum_at};

use crate::found::finding::{Finding, LoopFindings, Standing};

/// The interval that a loop has on the machine as it is, where it has one.
pub(crate) fn own_interval(found: &LoopFindings) -> Option<u64>
    ensures { result ≡ own_interval found.now }
{
    match found.standing {
        Standing::Met(ii, _) => Some(ii),
        Standing::Failed => None,
    }
}

/// The interval that a loop has on the variant of a number, where it has one. One that does not concern it leaves it what it is.
fn interval_at(found: &LoopFindings, number: usize) -> Option<u64>
    ensures { result ≡ interval_at number found.now }
{
    match found.findings.get(number) {
        Some(Some(Finding::Met(ii))) => Some(*ii),
        Some(Some(Finding::Limit)) => None,
        Some(Some(Finding::Failed)) => None,
        Some(None) => own_interval(found),
        None => own_interval(found),
    }
}

/// Whether the variant of a number concerns a loop.
fn is_concerned(found: &LoopFindings, number: usize) -> bool
    ensures { result ≡ is_concerned number found.now }
{
    matches!(found.findings.get(number), Some(Some(_)))
}

/// Whether it concerns the loop, and passes a limit.
fn is_past(found: &LoopFindings, number: usize) -> bool
    ensures { result ≡ is_past number found.now }
{
    matches!(found.findings.get(number), Some(Some(Finding::Limit)))
}

/// Whether the variant of a number concerns some loop.
pub(crate) fn concerns_some(loops: &[LoopFindings], number: usize) -> bool
    ensures { result ≡ list_any (is_concerned number) loops.now }
{
    loops.iter().any(|found| is_concerned(found, number))
}

/// Whether it concerns some loop, and passes a limit.
pub(crate) fn passes_limit(loops: &[LoopFindings], number: usize) -> bool
    ensures { result ≡ list_any (is_past number) loops.now }
{
    loops.iter().any(|found| is_past(found, number))
}

/// How many cycles an interval has.
fn cycles(interval: Option<u64>) -> u64
    ensures { result ≡ cycles interval }
{
    match interval {
        Some(ii) => ii,
        None => 0,
    }
}

/// Whether one interval is longer than another.
fn is_longer(one: Option<u64>, other: Option<u64>) -> bool
    ensures { result ≡ is_longer one other }
{
    match other {
        None => false,
        Some(other) => match one {
            None => true,
            Some(one) => other < one,
        },
    }
}

/// The sum of the intervals that loops have on the machine as it is.
pub(crate) fn own_sum(loops: &[LoopFindings]) -> u64
    requires { own_sum loops.now < 2 ^ 64 }
    ensures { result ≡ own_sum loops.now }
{
    loops.iter().map(|found| cycles(own_interval(found))).sum()
}

/// The sum of those on the variant of a number.
pub(crate) fn sum_at(loops: &[LoopFindings], number: usize) -> u64
    requires { sum_at number loops.now < 2 ^ 64 }
    ensures { result ≡ sum_at number loops.now }
{
    loops
        .iter()
        .map(|found| cycles(interval_at(found, number)))
        .sum()
}

/// How many loops have an interval on the machine as it is.
pub(crate) fn own_met(loops: &[LoopFindings]) -> u64
    ensures { result ≡ count_by (λ found. is_some (own_interval found)) loops.now }
{
    loops
        .iter()
        .filter(|found| own_interval(found).is_some())
        .count() as u64
}

/// How many have none.
pub(crate) fn own_failed(loops: &[LoopFindings]) -> u64
    ensures { result ≡ own_failed loops.now }
{
    loops
        .iter()
        .filter(|found| own_interval(found).is_none())
        .count() as u64
}

/// How many loops have no interval on the variant of a number.
pub(crate) fn failed_at(loops: &[LoopFindings], number: usize) -> u64
    ensures { result ≡ failed_at number loops.now }
{
    loops
        .iter()
        .filter(|found| interval_at(found, number).is_none())
        .count() as u64
}

/// How many have a shorter interval there.
pub(crate) fn shorter_at(loops: &[LoopFindings], number: usize) -> u64
    ensures { result ≡ shorter_at number loops.now }
{
    loops
        .iter()
        .filter(|found| is_longer(own_interval(found), interval_at(found, number)))
        .count() as u64
}

/// How many have a longer one.
pub(crate) fn longer_at(loops: &[LoopFindings], number: usize) -> u64
    ensures { result ≡ longer_at number loops.now }
{
    loops
        .iter()
        .filter(|found| is_longer(interval_at(found, number), own_interval(found)))
        .count() as u64
}
