//! What the bound and the lengths of walks are between: laws, stated by the contracts of functions that do nothing.

ghost use Rattle.walks.specs.Promises.{SchedulesKeepRecurrences, LongerIntervalsFit, RecurrencesAreLimited, WalksAreShort, SumsAreLimited};

/// No schedule that keeps the edges has an interval below their recurrence-constrained lower bound.
pub fn schedules_keep_recurrences()
    ensures { SchedulesKeepRecurrences }
{}

/// Every circuit fits an interval at or above the recurrence-constrained lower bound.
pub fn longer_intervals_fit()
    ensures { LongerIntervalsFit }
{}

/// The recurrence-constrained lower bound is at most 64 cycles for each operation, so at most 8,192.
pub fn recurrences_are_limited()
    ensures { RecurrencesAreLimited }
{}

/// Where every circuit fits an interval, the longest walks have fewer edges than there are operations.
pub fn walks_are_short()
    ensures { WalksAreShort }
{}

/// A walk of `n` edges is at most `64 * n + 64` cycles long, so `n` rounds raise no number beyond that.
pub fn sums_are_limited()
    ensures { SumsAreLimited }
{}
