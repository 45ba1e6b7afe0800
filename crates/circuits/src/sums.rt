//! The sums of a walk.

ghost use Rattle.std.specs.Prelude.{◌≡◌, ◌≤◌, ◌+◌, ◌*◌, pos, ◌+ℤ◌, ◌-ℤ◌, ◌≤ℤ◌, ◌<ℤ◌, length};
ghost use Rattle.std.specs.Bool.{OnTrue};
ghost use Rattle.walks.specs.Walks.{delay_of, distance_of};
ghost use Rattle.machine_data.specs.declared.limits.TheConstants.{MAX_INTERVAL};

use edges::Edge;

/// The sums of the delays and distances of edges.
#[derive(Clone, Copy)]
pub struct Sums {
    /// In cycles.
    pub delay: i64,
    /// In iterations.
    pub distance: u64,
}

impl Sums {
    /// The sums with one edge more.
    fn with(self, edge: Edge) -> Sums
        requires early { self.delay ≤ℤ pos MAX_INTERVAL }
        requires late { (pos 0 -ℤ pos MAX_INTERVAL) ≤ℤ self.delay }
        requires near { self.distance ≤ 32768 }
        ensures delay { result.delay ≡ (self.delay +ℤ edge.delay) }
        ensures distance { result.distance ≡ self.distance + edge.distance }
        ensures high { result.delay ≤ℤ (self.delay +ℤ pos 128) }
        ensures low { (self.delay -ℤ pos 128) ≤ℤ result.delay }
        ensures near { result.distance ≤ self.distance + 255 }
    {
        Sums {
            delay: self.delay + i64::from(edge.delay),
            distance: self.distance + u64::from(edge.distance),
        }
    }
}

/// The sums of the delays, in cycles, and of the distances, in iterations, of at most 128 edges.
pub fn sums_of(edges: &[Edge]) -> Sums
    requires few { length edges.now ≤ 128 }
    ensures delay { result.delay ≡ delay_of edges.now }
    ensures distance { result.distance ≡ distance_of edges.now }
    ensures near { result.distance ≤ 32768 }
{
    let mut sums = Sums {
        delay: 0,
        distance: 0,
    };
    for edge in edges {
        sums = sums.with(*edge);
    }
    sums
}

/// Whether a walk of at most 128 edges takes more cycles than its distance times the interval.
pub(crate) fn exceeds(walk: &[Edge], interval: u64) -> bool
    requires short { interval ≤ MAX_INTERVAL }
    requires few { length walk.now ≤ 128 }
    ensures { OnTrue result (pos (interval * distance_of walk.now) <ℤ delay_of walk.now) }
{
    let sums = sums_of(walk);
    sums.delay > (interval * sums.distance) as i64
}
