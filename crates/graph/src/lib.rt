//! The dependences between the operations of a loop, and ResMII, the bound of its initiation interval by its units.
//!
//! `edges` finds each dependence once, ascending by (from, to, distance, delay). Laws say what a schedule that keeps
//! these edges promises for the loads, stores and values of any two instances. ResMII is a bound of units by Rau's
//! choice of alternatives: where operations have alternatives, a schedule may have a shorter interval.
#![tactic(auto)]

mod dependence;
mod fault;
mod laws;
mod offers;
mod units;

pub use dependence::dependences::edges;
pub use fault::GraphFault;
pub use laws::{
    circuits_take_iterations, loads_in_time, stores_in_order, stores_in_time, values_in_time,
};
pub use offers::OfLoop;
pub use units::{missing_table, res_mii};
