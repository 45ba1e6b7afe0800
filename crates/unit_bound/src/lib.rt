//! A bound of the initiation interval by units, for operations that are given by the alternatives of each.
//!
//! It is the bound by Rau's choice: operations with fewer alternatives first, each takes the alternative that leaves the
//! most used unit with the lowest use. Where operations have alternatives, a schedule may have a shorter interval.
#![tactic(auto)]

mod offers;
mod units;

pub use offers::{OfList, Offers};
pub use units::{bound_of, res_mii_of};
