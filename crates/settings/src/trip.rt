//! Trip counts.

ghost use Rattle.std.specs.Prelude.{◌≡◌, ◌≤◌, ◌↔◌, IsSome, IfSome};
ghost use Rattle.machine_data.specs.declared.limits.TheConstants.{MAX_TRIP};

use machine_data::limits::MAX_TRIP;
use std::fmt;
use std::marker::Model;

/// The greatest trip count.
pub const TRIP_LIMIT: u64 = MAX_TRIP;

/// How many iterations a loop is run, 0 to 100,000. Contracts see the number.
#[derive(Clone, Copy, PartialEq, Eq)]
pub struct Trip {
    count: u64,
}

impl Model for Trip {
    ghost use Rattle.std.specs.Prelude.{ℕ, ◌≤◌};
    ghost use Rattle.machine_data.specs.declared.limits.TheConstants.{MAX_TRIP};

    ghost Value = { ℕ };

    ghost view = { λ t. t.count };

    ghost inverse = { λ n. record { count = n } };

    ghost invariant = { λ t. t.count ≤ MAX_TRIP };
}

impl Trip {
    /// The trip count of this number, where it is at most 100,000.
    pub fn new(count: u64) -> Option<Trip>
        ensures within { IsSome result ↔ (count ≤ MAX_TRIP) }
        ensures value { IfSome result (λ trip. trip ≡ count) }
    {
        if count <= TRIP_LIMIT {
            Some(Trip { count })
        } else {
            None
        }
    }

    /// The number.
    pub fn count(self) -> u64
        ensures value { result ≡ self }
        ensures within { result ≤ MAX_TRIP }
    {
        self.count
    }
}

impl fmt::Debug for Trip {
    ghost use Rattle.std.specs.Prelude.{Some, decimal};

    ghost debug_output = { λ t. Some (decimal t) };

    fn fmt<W: fmt::Write>(&self, f: &mut fmt::Formatter<W>) -> fmt::Result {
        fmt::Debug::fmt(&self.count, f)
    }
}
