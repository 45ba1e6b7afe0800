//! Walks along edges: RecMII, the bound of the initiation interval by circuits, and the heights of operations.
//!
//! The contracts speak of walks; the code is Bellman-Ford relaxation in place, from the last operation to the first. To
//! find RecMII, the interval is raised as long as a circuit does not fit it, each time to the least one that this
//! circuit fits. `feasible` and `rounds` ask of one interval. Laws say that no schedule has an interval below RecMII.
#![tactic(auto)]

mod height;
mod laws;
mod recurrence;
mod relaxation;
mod round_count;

pub use height::heights;
pub use laws::{
    longer_intervals_fit, recurrences_are_limited, schedules_keep_recurrences, sums_are_limited,
    walks_are_short,
};
pub use recurrence::{feasible, mii, rec_mii};
pub use round_count::rounds;
