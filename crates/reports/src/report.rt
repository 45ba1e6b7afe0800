//! What a worker found.
ghost use Rattle.std.specs.Prelude.{◌≡◌, ◌↔◌, ◌≤◌, ◌<◌, ◌+◌, ◌-◌, IsTrue, true, false, [], vec_len, vec_capacity};
ghost use Rattle.std.specs.List.{All};
ghost use Rattle.reports.specs.Entries.{IsEntry, ReportData, HasNoRefusal, Enters};

use crate::entry::Entry;
use loop_schedules::Prepared;
use std::alloc::Global;
use std::marker::Model;

/// What a worker found of loops, which it borrows. Each entry that tells a kernel or a cause is true of its
/// interval, by this type, wherever the report goes. Contracts see the entries and for how many more there
/// is room.
#[derive(Drop)]
pub struct Report<'a> {
    loops: &'a [Prepared],
    entries: Vec<Entry>,
    lost: u64,
    dry: bool,
}

impl<'a> Model for Report<'a> {
    ghost Value = { ReportData };

    ghost view = { λ r. record { loops = r.loops.now; entries = r.entries.items; lost = r.lost; dry = r.dry; room = vec_capacity r.entries - vec_len r.entries } };

    ghost invariant = { λ r. All (IsEntry r.loops.now) r.entries.items };
}

impl<'a> Report<'a> {
    /// The loops that it is of.
    pub fn loops(&self) -> &'a [Prepared]
        ensures value { result.now ≡ self.now.loops }
    {
        self.loops
    }

    /// What was found, in order.
    pub fn entries(&self) -> &[Entry]
        ensures value { result.now ≡ self.now.entries }
        ensures truth { All (IsEntry self.now.loops) self.now.entries }
    {
        self.entries.as_slice()
    }

    /// How many pieces were lost for lack of memory.
    pub fn lost(&self) -> u64
        ensures value { result ≡ self.now.lost }
    {
        self.lost
    }

    /// Whether its pass went dry.
    pub fn is_dry(&self) -> bool
        ensures value { result ≡ self.now.dry }
    {
        self.dry
    }

    /// Whether nothing was refused to its worker: no piece is lost, and no interval unsettled.
    pub fn is_whole(&self) -> bool
        ensures { IsTrue result ↔ HasNoRefusal self.now.loops self.now }
    {
        self.lost == 0 && self.entries.iter().all(|entry| !entry.found.is_unsettled())
    }

    /// The entries alone.
    pub fn into_entries(self) -> Vec<Entry>
        ensures value { result.items ≡ self.entry.entries }
        ensures truth { All (IsEntry self.entry.loops) result.items }
    {
        let Report {
            loops: _,
            entries,
            lost: _,
            dry: _,
        } = self;
        entries
    }
}

// What makes a report. Users of `workers` are handed reports, and these calls are not among what it hands on.

/// A report of these loops, without entries.
pub fn report_of<'a>(alloc: Global, loops: &'a [Prepared]) -> Report<'a>
    ensures loops { result.loops ≡ loops.now }
    ensures entries { result.entries ≡ [] }
    ensures lost { result.lost ≡ 0 }
    ensures dry { result.dry ≡ false }
{
    Report {
        loops,
        entries: Vec::new(alloc),
        lost: 0,
        dry: false,
    }
}

/// Counts a piece as lost.
pub fn lose(report: &mut Report<'_>)
    requires few { report.old.lost < 18446744073709551615 }
    ensures loops { report.new.loops ≡ report.old.loops }
    ensures entries { report.new.entries ≡ report.old.entries }
    ensures lost { report.new.lost ≡ report.old.lost + 1 }
    ensures dry { report.new.dry ≡ report.old.dry }
{
    report.lost += 1;
}

/// Tells that the pass went dry.
pub fn go_dry(report: &mut Report<'_>)
    ensures loops { report.new.loops ≡ report.old.loops }
    ensures entries { report.new.entries ≡ report.old.entries }
    ensures lost { report.new.lost ≡ report.old.lost }
    ensures dry { report.new.dry ≡ true }
{
    report.dry = true;
}

/// Makes room for `count` more entries. The result is whether there is memory for them.
pub fn reserve(report: &mut Report<'_>, count: usize) -> bool
    ensures loops { report.new.loops ≡ report.old.loops }
    ensures entries { report.new.entries ≡ report.old.entries }
    ensures lost { report.new.lost ≡ report.old.lost }
    ensures dry { report.new.dry ≡ report.old.dry }
    ensures room { IsTrue result → count ≤ report.new.room }
    ensures had { count ≤ report.old.room → IsTrue result }
{
    report.entries.reserve(count).is_ok()
}

/// Adds an entry, for which there is room.
pub fn enter(report: &mut Report<'_>, entry: Entry)
    requires truth { IsEntry report.old.loops entry }
    requires room { 0 < report.old.room }
    ensures { Enters report.old entry report.new }
{
    report.entries.push_reserved(entry);
}
