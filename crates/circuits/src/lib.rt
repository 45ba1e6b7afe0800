//! Finds a circuit of dependences that takes more cycles than its distance times an interval allows.
//!
//! `circuit_above` gives a closed walk that comes to no operation twice, or tells that every circuit fits. Sweeps make
//! the walks from all operations longer, in place, and keep the edge with which each walk begins. After each sweep the
//! code follows these edges until they come to an operation again. It is not proved that sweeps always end, so there is
//! a search by layers for the case that they do not: it finds the longest walks of at most 0, 1, 2 .. edges. A walk
//! that still gets longer with more edges than there are operations goes round a circuit that does not fit. Laws say
//! that such a circuit is there for each interval below RecMII, and for no other.
#![tactic(auto)]

mod above;
mod first_edges;
mod laws;
mod layer;
mod sums;
mod sweeps;

pub use above::circuit_above;
pub use laws::{bounds_have_circuits, circuits_bound_intervals};
pub use sums::{Sums, sums_of};
