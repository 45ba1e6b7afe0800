//! The settings of a search, trip counts and output formats, each within its limits by its type.
//!
//! The settings are the budget ratio, the ceiling, the number of workers and the cut. This crate stands low, so that
//! the command line needs none of the crates that schedule. Its definitions also say which interval a search has to
//! find, whatever an interval gives (`IsLeastGiven`, `IsNoneGiven`). Lemmas say that there is one answer. `candidates`
//! and `solutions` choose by these definitions.
#![tactic(auto)]

ghost use Rattle.std.specs.Prelude.{◌≡◌, ◌↔◌, IsOk, IfOk, IfErr};
ghost use Rattle.settings.specs.Settings.{AreSettings, IsOutside};

mod format;
mod trip;

pub use format::Format;
use machine_data::limits::{MAX_CEILING, MAX_CUT, MAX_RATIO, MAX_WORKERS};
use std::fmt;
use std::marker::Model;
use thiserror::Error;
pub use trip::{TRIP_LIMIT, Trip};

/// The settings of a listing. Contracts see the four numbers.
#[derive(Clone, Copy, Debug, PartialEq, Eq)]
pub struct Settings {
    ratio: u64,
    ceiling: u64,
    workers: usize,
    cut: u64,
}

impl Model for Settings {
    ghost use Rattle.settings.specs.Settings.{SettingsData, AreSettings};

    ghost Value = { SettingsData };

    ghost view = { λ s. record { ratio = s.ratio; ceiling = s.ceiling; workers = s.workers; cut = s.cut } };

    ghost inverse = { λ s. record { ratio = s.ratio; ceiling = s.ceiling; workers = s.workers; cut = s.cut } };

    ghost invariant = { λ s. AreSettings (record { ratio = s.ratio; ceiling = s.ceiling; workers = s.workers; cut = s.cut }) };
}

/// A setting that is out of its range.
#[derive(Clone, Copy, Debug, PartialEq, Eq, Error)]
pub enum OutOfRange {
    /// The ratio is not 1 to 64.
    Ratio,
    /// The ceiling is above 255.
    Ceiling,
    /// The number of workers is not 1 to 64.
    Workers,
    /// The cut is not 1 to 256.
    Cut,
}

impl fmt::Display for OutOfRange {
    ghost use Rattle.std.specs.Prelude.{Some};
    ghost use Rattle.settings.specs.Settings.{told_of};

    ghost output = { λ which. Some (told_of which) };

    fn fmt<W: fmt::Write>(&self, f: &mut fmt::Formatter<W>) -> fmt::Result {
        f.write_str(match self {
            OutOfRange::Ratio => "the ratio is not 1 to 64",
            OutOfRange::Ceiling => "the ceiling is not 0 to 255",
            OutOfRange::Workers => "the number of workers is not 1 to 64",
            OutOfRange::Cut => "the cut is not 1 to 256",
        })
    }
}

impl Settings {
    /// The settings of these numbers: how many times as many placements as operations an attempt may make, 1 to
    /// 64; how many intervals above its least one a loop is tried at, 0 to 255; how many workers there
    /// are, 1 to 64; and how many intervals a worker draws at once, 1 to 256. Workers and cut change
    /// no listing.
    ///
    /// # Errors
    /// A number that is out of its range.
    pub fn new(ratio: u64, ceiling: u64, workers: usize, cut: u64) -> Result<Settings, OutOfRange>
        ensures exact { IsOk result ↔ AreSettings (record { ratio = ratio; ceiling = ceiling; workers = workers; cut = cut }) }
        ensures value { IfOk result (λ s. s ≡ record { ratio = ratio; ceiling = ceiling; workers = workers; cut = cut }) }
        ensures outside { IfErr result (IsOutside (record { ratio = ratio; ceiling = ceiling; workers = workers; cut = cut })) }
    {
        if !(1..=MAX_RATIO).contains(&ratio) {
            return Err(OutOfRange::Ratio);
        }
        if ceiling > MAX_CEILING {
            return Err(OutOfRange::Ceiling);
        }
        if !(1..=MAX_WORKERS).contains(&workers) {
            return Err(OutOfRange::Workers);
        }
        if !(1..=MAX_CUT).contains(&cut) {
            return Err(OutOfRange::Cut);
        }
        Ok(Settings {
            ratio,
            ceiling,
            workers,
            cut,
        })
    }

    /// How many times as many placements as operations an attempt may make, 1 to 64.
    pub fn ratio(self) -> u64
        ensures value { result ≡ self.ratio }
        ensures well_formed { AreSettings self }
    {
        self.ratio
    }

    /// How many intervals above its least one a loop is tried at, 0 to 255.
    pub fn ceiling(self) -> u64
        ensures value { result ≡ self.ceiling }
        ensures well_formed { AreSettings self }
    {
        self.ceiling
    }

    /// How many workers there are, 1 to 64.
    pub fn workers(self) -> usize
        ensures value { result ≡ self.workers }
        ensures well_formed { AreSettings self }
    {
        self.workers
    }

    /// How many intervals a worker draws at once, 1 to 256.
    pub fn cut(self) -> u64
        ensures value { result ≡ self.cut }
        ensures well_formed { AreSettings self }
    {
        self.cut
    }
}
